//! A caller of `subcommands`: what a script prints, as its clauses say it.

ghost use Rattle.std.specs.Prelude.{◌≡◌, List, IfSome};
ghost use Rattle.std.specs.Str.Lines.{lines};
ghost use Rattle.machine.specs.declared.command.Reply.{Reply};
ghost use Rattle.block_store.specs.Device.{Disk};
ghost use Rattle.driver.specs.Schedule.{Schedules};
ghost use Rattle.scripts.specs.declared.mode.Mode.TheVariants.{Schedule};
ghost use Rattle.scripts.specs.Script.{items_of, steps_of, IsFaultless};
ghost use Rattle.printer.specs.Prints.{texts};
ghost use Rattle.subcommands.specs.Scripts.{configured, disk_of};
ghost use Rattle.printer.specs.Asked.{plain};

use std::alloc::Global;
use std::str;
use std::test::Fail;
use subcommands::schedule;

/// What the script prints, if it ends well.
fn printed(alloc: Global, script: &[u8]) -> Option<Vec<u8>>
    ensures faultless { IfSome result (λ out. IsFaultless Schedule (lines script.now)) }
    ensures answers { IfSome result (λ out. (answers : List Reply) × (after : Disk)
        × Schedules (configured plain (items_of (lines script.now))) (disk_of (items_of (lines script.now))) (steps_of (items_of (lines script.now))) answers after
        × (out.items ≡ texts answers)) }
{
    let mut bytes = script;
    let mut out = Vec::new(alloc);
    let mut err = Vec::new(alloc);
    match schedule(alloc, &mut bytes, &mut out, &mut err) {
        0 => Some(out),
        _ => None,
    }
}

#[test]
fn a_script_is_printed(rt: HostRuntime) -> Result<(), Fail> {
    let script = b"group /a\ntask 1 /a\n1 write 0 0 7\n1 read 0 0\ncat /a memory.current\n";
    let out = printed(rt.alloc(), script).ok_or("not printed")?;
    assert_eq!(rt; str::from_utf8(&out), Ok("1 7\n4096\n"));
    assert!(rt; printed(rt.alloc(), b"task 1\n").is_none());
    Ok(())
}
