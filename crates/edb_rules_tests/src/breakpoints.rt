//! A table of breakpoints that grows row by row, worked by hand.

ghost use Rattle.std.specs.Prelude.{◌+◌, ◌<◌, ◌≤◌, ◌^◌};

use edb_breaks::{Breaks, Exists};
use edb_lang::{Action, Name, Status};
use std::alloc::{AllocError, Global};
use std::test::Fail;

// The serial of a new row, or none where the place has one.
fn add(
    alloc: Global,
    breaks: &mut Breaks,
    module: &str,
    line: u32,
) -> Result<Option<u128>, AllocError>
    requires { breaks.old.given < 2 ^ 127 }
    ensures { breaks.new.given ≤ breaks.old.given + 1 }
{
    let module = Name::from_str(alloc, module)?;
    match breaks.add(module, line)? {
        Ok(serial) => Ok(Some(serial)),
        Err(Exists) => Ok(None),
    }
}

#[test]
fn rows_in_the_order_of_their_making(rt: HostRuntime) -> Result<(), Fail> {
    let alloc = rt.alloc();
    let mut breaks = Breaks::new(alloc);
    for (module, line, serial) in [
        ("shop", 7, Some(1)),
        ("shop", 7, None),
        ("shop", 8, Some(2)),
        ("till", 7, Some(3)),
        ("shop", 8, None),
    ] {
        let before = breaks.copy()?;
        let answer = add(alloc, &mut breaks, module, line)?;
        assert_eq!(rt; answer, serial, "{module} {line}");
        assert_eq!(rt;
            before.is_same(&breaks),
            serial.is_none(),
            "{module} {line}"
        );
    }
    let rows = breaks.all()?;
    assert_eq!(rt; rows.len(), 3);
    for (row, (module, line, serial)) in rows
        .iter()
        .zip([("shop", 7, 1), ("shop", 8, 2), ("till", 7, 3)])
    {
        assert_eq!(rt; row.module.as_str(), module);
        assert_eq!(rt; row.line, line);
        assert_eq!(rt; row.row.serial, serial);
        assert_eq!(rt; row.row.status, Status::Active);
        assert_eq!(rt; row.row.trigger, Action::Enable);
        assert!(rt; row.row.cond.is_none());
        let found = breaks.at(&row.module, line).ok_or("not found")?;
        assert_eq!(rt; found.serial, serial);
    }
    let till = Name::from_str(alloc, "till")?;
    assert!(rt; breaks.at(&till, 8).is_none());
    Ok(())
}

#[test]
fn a_serial_is_found_at_its_place_alone(rt: HostRuntime) -> Result<(), Fail> {
    let alloc = rt.alloc();
    let mut breaks = Breaks::new(alloc);
    add(alloc, &mut breaks, "shop", 7)?;
    add(alloc, &mut breaks, "shop", 8)?;
    add(alloc, &mut breaks, "till", 7)?;
    for (module, line, serial, stands) in [
        ("shop", 7, 1, true),
        ("shop", 7, 2, false),
        ("shop", 8, 1, false),
        ("till", 7, 1, false),
        ("till", 7, 3, true),
    ] {
        let module = Name::from_str(alloc, module)?;
        let had = breaks.has(&module, line, serial);
        assert_eq!(rt; had, stands, "{line} {serial}");
        let found = breaks.enable_serial(&module, line, serial);
        assert_eq!(rt; found, stands, "{line} {serial}");
    }
    Ok(())
}
