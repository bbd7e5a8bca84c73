// The key that the negotiation asks for.
ghost use Rattle.std.specs.Prelude.{◌≡◌};
ghost use Rattle.vbd_front.specs.Ask.{key_ask};
ghost use Rattle.vbd_front.specs.Turn.{lent_ask};

use blk_base::{End, FrontAsk, Lent, Path, Text};
use xenbus_state::{FrontBusAsk, back_path, front_path, state_path};

/// The path and the text of what the negotiation asks, empty where it asks for none.
#[derive(Drop)]
pub struct Key {
    path: Path,
    text: Text,
}

impl Key {
    /// What this ask names.
    pub fn of(ask: &FrontBusAsk) -> Key
        ensures { lent_ask ask.now result.path result.text ≡ key_ask ask.now }
    {
        match ask {
            FrontBusAsk::Watch | FrontBusAsk::GetState => read(state_path(End::Back)),
            FrontBusAsk::GetKey(key) => read(back_path(*key)),
            FrontBusAsk::SetState(state) => Key {
                path: state_path(End::Front),
                text: state.text(),
            },
            FrontBusAsk::SetKey(key, value) => Key {
                path: front_path(*key),
                text: value.text(),
            },
            _ => read(Path::new()),
        }
    }

    /// The ask, with its path and its text lent; `Wait` where it names none.
    pub fn lend(&self, ask: &FrontBusAsk) -> FrontAsk<'_>
        ensures { result ≡ lent_ask ask.now self.now.path self.now.text }
    {
        match ask {
            FrontBusAsk::Watch => FrontAsk::Watch(Lent::at(&self.path)),
            FrontBusAsk::GetState | FrontBusAsk::GetKey(_) => FrontAsk::GetKey(Lent::at(
                &self.path,
            )),
            FrontBusAsk::SetState(_) | FrontBusAsk::SetKey(..) => {
                FrontAsk::SetKey(Lent::at(&self.path), Lent::at(&self.text))
            }
            _ => FrontAsk::Wait,
        }
    }
}

// A path with no text.
fn read(path: Path) -> Key
    ensures { result.path ≡ path }
{
    Key {
        path,
        text: Text::new(),
    }
}
