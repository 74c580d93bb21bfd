//! That the turns of a race are used for steps.
use crate::carry::closed;
use crate::{Raced, prepare_run, race};
use acpi_regs::{Actor, Gate};
use std::sync::atomic::{AtomicBool, AtomicU64, Ordering};
use std::test::Fail;

/// A byte of memory that a firmware script writes and then reads.
const TWO: &str =
    "{\"controller\":null,\"devices\":[],\"events\":[],\"fields\":[{\"bit\":0,\"lock\":false,\"region\":0,\"update\":\"preserve\",\"width\":8}],\"firmware\":[[[\"write\",0,90],[\"read\",0]]],\"gpe\":{\"base1\":0,\"gpe0\":2,\"gpe1\":0},\"regions\":[{\"bytes\":[],\"kind\":\"memory\",\"len\":1}],\"schedule\":[],\"version\":1,\"workers\":1}";

/// How often a gate looks before it gives up.
const LIMIT: u32 = 50_000_000;

/// A gate that holds every actor but the first firmware until that one has come to its third pass.
#[derive(Drop)]
struct ThirdPass {
    passes: AtomicU64,
    gave_up: AtomicBool,
}

impl Gate for ThirdPass {
    fn pass(&self, actor: Actor) {
        if matches!(actor, Actor::Firmware(0)) {
            self.passes.fetch_add(1, Ordering::SeqCst);
        } else if !self.gave_up.load(Ordering::SeqCst) && !self.came() {
            self.gave_up.store(true, Ordering::SeqCst);
        }
    }
}

impl ThirdPass {
    /// Whether the third pass came before the limit.
    fn came(&self) -> bool {
        for _ in 0..LIMIT {
            if self.passes.load(Ordering::SeqCst) >= 3 {
                return true;
            }
        }
        false
    }
}

/// The first firmware made its two steps on its thread, before any other actor made one: so a race that takes turns
/// and makes no step is told.
#[test]
fn race_steps(rt: HostRuntime) -> Result<(), Fail> {
    let Ok(prepared) = prepare_run(rt.alloc(), TWO.as_bytes()) else {
        return Err("no machine".into());
    };
    // The weight of the machine is 2, so each actor has 66 turns.
    assert_eq!(rt; prepared.machine().weight(), 2);
    let gate = ThirdPass {
        passes: AtomicU64::new(0),
        gave_up: AtomicBool::new(false),
    };
    let Raced {
        machine,
        table,
        root,
        actors,
        ..
    } = race(&rt, prepared, &gate);
    let world = closed(&machine, table, root, &actors);
    assert!(rt; !gate.gave_up.load(Ordering::SeqCst));
    assert_eq!(rt; world.board().len(), 2);
    Ok(())
}
