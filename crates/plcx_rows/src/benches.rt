//! What someone who listens is told of a bench.
use crate::calls::{Failing, NONE, called};
use plcx_command::Status;
use plcx_steps::LogWatch;
use plcx_types::{Ty, Val};
use std::test::Fail;

const OF_THREE: &str = "networks 3\nelements 12\nscans 10\ndiagram 87\ntext 87\n";

#[test]
fn tells_a_watch_of_each_variable_and_sum(rt: HostRuntime) -> Result<(), Fail> {
    let alloc = rt.alloc();
    let failing = Failing { out: 1, ..NONE };
    for (calls, status, out, err) in [
        (NONE, Status::Done, OF_THREE, ""),
        (failing, Status::WriteFault, "", "plcx: cannot write\n"),
    ] {
        let mut watch = LogWatch::new(alloc, 100)?;
        let left = called(alloc, "bench 3", calls, &mut watch)?;
        assert!(rt; left.is(status, out, err));
        assert_eq!(rt; watch.list().len(), 60);
        for (place, (local_id, n)) in [(1, 0), (3, 1), (5, 1), (7, 2)].iter().enumerate() {
            let told = watch.list()[place];
            assert_eq!(rt; (told.pou, told.local_id, told.pin), (0, *local_id, 0));
            assert_eq!(rt; Some(told.value), Val::new(Ty::Dint, *n));
        }
    }
    Ok(())
}
