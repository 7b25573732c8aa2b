ghost use Rattle.std.specs.Prelude.{◌≡◌, ◌<◌};

use std::marker::Brand;
use std::sync::ledger::{Blank, Ledger};
use std::test::Fail;
use step_count::{Counted, NoLedger, Steps};

fn three<K: Ledger>(blank: Blank) -> u64
    requires name { blank.name ≡ K.name }
    requires parts { blank.parts ≡ K.parts }
    requires some { 0 < blank.parts }
    ensures { result ≡ 3 }
{
    let mut steps = Steps::new(Counted::<K>::new(blank));
    steps.tick();
    steps.tick();
    steps.tick();
    steps.ledger().shown()
}

fn uncounted<K: Ledger>(blank: Blank)
    requires name { blank.name ≡ K.name }
    requires parts { blank.parts ≡ K.parts }
    requires some { 0 < blank.parts }
{
    let mut steps = Steps::new(NoLedger::<K>::new(blank));
    steps.tick();
}

#[test]
fn a_ledger_shows_three_ticks(rt: HostRuntime) -> Result<(), Fail> {
    uncounted::<Brand>(Blank::new(1));
    assert!(rt; three::<Brand>(Blank::new(1)) == 3);
    assert!(rt; size_of::<Steps<NoLedger<Brand>>>() == 0);
    Ok(())
}
