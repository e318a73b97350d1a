// The ports at their edges.
use console::state::Console;
use refusal::Refusal;
use std::test::Fail;

#[test]
fn eighty_columns_are_accepted_and_eighty_one_refused(rt: HostRuntime) -> Result<(), Fail> {
    let mut console = Console::new();
    console.command(0x00)?;
    assert_eq!(rt; console.parameter(0x50), Err(Refusal::TooManyColumns));
    // the first parameter is still due
    assert_eq!(rt; console.parameter(0x4F), Ok(()));
    assert_eq!(rt; console.status(), 0x00);
    Ok(())
}

#[test]
fn a_command_that_breaks_off_parameters_is_improper(rt: HostRuntime) -> Result<(), Fail> {
    let mut console = Console::new();
    console.command(0x80)?;
    console.parameter(5)?;
    assert_eq!(rt; console.command(0x01), Err(Refusal::UnknownCommand));
    assert_eq!(rt; console.status(), 0x00);
    console.command(0xA0)?;
    assert_eq!(rt; console.status(), 0x48);
    assert_eq!(rt; console.status(), 0x40);
    Ok(())
}

#[test]
fn what_nobody_waits_for_is_improper(rt: HostRuntime) -> Result<(), Fail> {
    let mut console = Console::new();
    assert_eq!(rt; console.read_parameter(), 0);
    assert_eq!(rt; console.status(), 0x08);
    console.parameter(1)?;
    assert_eq!(rt; console.status(), 0x08);
    console.command(0x60)?;
    assert_eq!(rt; console.read_parameter(), 0);
    assert_eq!(rt; console.read_parameter(), 0);
    assert_eq!(rt; console.status(), 0x00);
    Ok(())
}
