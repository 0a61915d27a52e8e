//! Runs in threads of each level, over rings and over the queue, each judged.
ghost use Rattle.std.specs.Prelude.{IfOk};
ghost use Rattle.placement.specs.Config.{placed};
ghost use Rattle.session_known.specs.Script.{IsValidScript};

use super::*;
use anna_check::{Verdict, check};
use lattice_laws::NoMemory;
use script_reader::read_script;
use session_known::Script;
use std::alloc::Global;
use std::test::Fail;

/// Two workers that both hold two keys, and two sessions of each level, which put and get what the other
/// one does.
const LEVELS: [&str; 3] = [
    "anna 1\nworkers 2\nround 1\nkey a set at 1 2\nkey b max at 2 1\nsession s eventual\nput a x\nget a\nput b 4\nget b 1\nget a 2\nsession t eventual\nput b 7\nget b\nput a y\nget a\nget b 2\nend\n",
    "anna 1\nworkers 2\nround 1\nkey a set at 1 2\nkey b max at 2 1\nsession s committed\nbegin\nput a x\nput b 4\nget a\ncommit\nget a 2\nbegin\nput a z\nabort\nget b\nsession t committed\nput b 7\nbegin\nput a y\ncommit\nget b 2\nget a\nend\n",
    "anna 1\nworkers 2\nround 1\nkey a set at 1 2\nkey b max at 2 1\nsession s causal\nput a x\nawait b t 1\nput a z\nget b\nsession t causal\nawait a s 1\nput b 7\nget a\nawait a s 3\nend\n",
];

/// The script that a text says.
pub(super) fn script_of(alloc: Global, text: &str) -> Result<Script, NoMemory>
    ensures { IfOk result (λ script. IsValidScript script (placed script.config)) }
{
    match read_script(alloc, text.as_bytes()) {
        Ok(script) => Ok(script),
        Err(_) => Err(NoMemory),
    }
}

#[test]
fn two_workers_and_two_sessions_of_each_level(rt: HostRuntime) -> Result<(), Fail> {
    for text in LEVELS {
        let script = script_of(rt.alloc(), text)?;
        let drained = serve(&rt, &FreeGate, rt.alloc(), &script)?;
        let verdict = check(rt.alloc(), &script, &drained.report)?;
        assert_eq!(rt; verdict, Verdict::Legal);
    }
    Ok(())
}

#[test]
fn two_workers_and_two_sessions_of_each_level_over_queues(rt: HostRuntime) -> Result<(), Fail> {
    for text in LEVELS {
        let script = script_of(rt.alloc(), text)?;
        let drained = serve_waiting(
            &rt,
            &Waiting(&rt),
            &FreeGate,
            &QueuePost { rt },
            rt.alloc(),
            &script,
        )?;
        let verdict = check(rt.alloc(), &script, &drained.report)?;
        assert_eq!(rt; verdict, Verdict::Legal);
    }
    Ok(())
}
