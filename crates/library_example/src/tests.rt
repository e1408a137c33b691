//! A test on a file whose solid names no shell.

use crate::{Finding, judge};
use iges_base::EntryNo;
use solid_data::{Failing, Rule};

// Solid 1 names the entry 0 as its shell.
const TINY: &[u8] =
    b"tiny                                                                    S      1
1H,,1H;;                                                                G      1
     186       1       0       0       0       0       0       000000000D      1
     186       0       0       1       0                               0D      2
186,0,1,0;                                                             1P      1
S      1G      1D      2P      1                                        T      1
";

#[test]
fn solid_without_a_shell(rt: HostRuntime) {
    let finding = judge(rt.alloc(), TINY, EntryNo(1));
    let named = matches!(
        finding,
        Finding::Fails(Failing {
            rule: Rule::NoEntry,
            entity: EntryNo(1),
            place: 1,
        })
    );
    assert!(rt; named);
}
