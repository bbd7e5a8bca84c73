//! A front's client: what it still owes over a suspend.
ghost use Rattle.std.specs.Prelude.{◌≡◌};

use crate::expected::{holds, same};
use resume_shadow::{Numbered, Shadow};
use std::test::Fail;

// A request of a number, with what is asked.
#[derive(PartialEq, Eq, Drop)]
struct Asked {
    number: u32,
    sector: u64,
}

impl Numbered for Asked {
    ghost number_of = { λ r. r.number };

    fn number(&self) -> u32 {
        self.number
    }
}

fn request(number: u32, sector: u64) -> Asked
    ensures { result ≡ record { number = number; sector = sector } }
{
    Asked { number, sector }
}

#[test]
fn finds_by_id_what_was_issued(rt: HostRuntime) -> Result<(), Fail> {
    let mut shadow = Shadow::reserve(rt.alloc(), 4)?;
    holds(&rt, shadow.is_empty());
    shadow.add(request(4, 0));
    shadow.add(request(7, 16));
    shadow.add(request(9, 24));
    same(&rt, shadow.len(), 3);

    same(&rt, shadow.find(2, 7), Some(1));
    assert_eq!(rt; shadow.find(2, 9), None, "not among the first two");
    assert_eq!(rt; shadow.find(3, 5), None, "never issued");
    assert_eq!(rt;
        shadow.find(3, 4294967303),
        None,
        "an id above 32 bits, of which the low word is 7"
    );
    holds(&rt, shadow.get(1).is_some_and(|r| r.sector == 16));
    holds(&rt, shadow.get(3).is_none());
    Ok(())
}

#[test]
fn issues_again_in_order_what_was_not_answered(rt: HostRuntime) -> Result<(), Fail> {
    let mut shadow = Shadow::reserve(rt.alloc(), 3)?;
    shadow.add(request(4, 0));
    shadow.add(request(7, 16));
    shadow.add(request(4294967295, 40));

    let taken = shadow.finish(1);
    same(&rt, &taken, &request(7, 16));
    assert_eq!(rt; shadow.find(2, 7), None, "handed out");
    same(&rt, shadow.find(2, 4294967295), Some(1));

    shadow.put_back(taken);
    let mut again = shadow.in_order().iter();
    for number in [4, 7, 4294967295] {
        assert!(rt;
            again.next().is_some_and(|r| r.number == number),
            "{number}"
        );
    }
    holds(&rt, again.next().is_none());
    Ok(())
}
