// The key that the negotiation asks for.
ghost use Rattle.std.specs.Prelude.{◌≡◌};
ghost use Rattle.vbd_back.specs.Ask.{key_ask};
ghost use Rattle.vbd_back.specs.Turn.{lent_ask};

use blk_base::{BackAsk, End, Lent, Path, Text};
use xenbus_state::{BackBusAsk, back_path, front_path, state_path};

/// The path and the text of what the negotiation asks, empty where it asks for none.
#[derive(Drop)]
pub struct Key {
    path: Path,
    text: Text,
}

impl Key {
    /// What this ask names.
    pub fn of(ask: &BackBusAsk) -> Key
        ensures { lent_ask ask.now result.path result.text ≡ key_ask ask.now }
    {
        match ask {
            BackBusAsk::Watch | BackBusAsk::GetState => read(state_path(End::Front)),
            BackBusAsk::GetKey(key) => read(front_path(*key)),
            BackBusAsk::SetState(state) => Key {
                path: state_path(End::Back),
                text: state.text(),
            },
            BackBusAsk::SetKey(key, value) => Key {
                path: back_path(*key),
                text: value.text(),
            },
            _ => read(Path::new()),
        }
    }

    /// The ask, with its path and its text lent; `Wait` where it names none.
    pub fn lend(&self, ask: &BackBusAsk) -> BackAsk<'_>
        ensures { result ≡ lent_ask ask.now self.now.path self.now.text }
    {
        match ask {
            BackBusAsk::Watch => BackAsk::Watch(Lent::at(&self.path)),
            BackBusAsk::GetState | BackBusAsk::GetKey(_) => BackAsk::GetKey(Lent::at(&self.path)),
            BackBusAsk::SetState(_) | BackBusAsk::SetKey(..) => {
                BackAsk::SetKey(Lent::at(&self.path), Lent::at(&self.text))
            }
            _ => BackAsk::Wait,
        }
    }
}

// A path with no text.
fn read(path: Path) -> Key
    ensures { result.path ≡ path }
{
    Key {
        path,
        text: Text::new(),
    }
}
