// Asks for the demands of the worked cases C, D and E, of a sheet with a factory mode and for more, and prints what is answered, a line each.
#![tactic(auto)]

use judge::Refusal;
use std::io;

fn say(rt: &HostRuntime, answer: Result<u32, Refusal>) -> io::Result<()> {
    match answer {
        Ok(demand) => println!(rt; "{demand}"),
        Err(refusal) => println!(rt; "{refusal}"),
    }
}

// D: task (1, 1, 1, 8) in a mode of period 8. E: task (0, 1, 4, 4) in one of period 8.
fn modes(rt: &HostRuntime) -> io::Result<()> {
    let d = b"HZ\x08\x00ML\x01\x00MD\x08\x00TK\x01\x00\x01\x00\x01\x00\x08\x00EN\x04\x00";
    say(rt, demand::mode_demand(d, 0, 0, 0, 1))?;
    say(rt, demand::mode_demand(d, 0, 0, 0, 2))?;
    say(rt, demand::mode_demand(d, 0, 0, 1, 2))?;
    say(rt, demand::mode_demand(d, 0, 0, 2, 8))?;
    let e = b"HZ\x08\x00ML\x01\x00MD\x08\x00TK\x00\x00\x01\x00\x04\x00\x04\x00EN\x04\x00";
    say(rt, demand::mode_demand(e, 0, 0, 1, 4))?;
    say(rt, demand::mode_demand(e, 0, 0, 1, 8))?;
    say(rt, demand::mode_demand(e, 0, 0, 0, 8))?;
    say(rt, demand::mode_demand(e, 0, 0, 8, 8))?;
    say(rt, demand::mode_demand(e, 0, 0, 0, 9))?;
    say(rt, demand::mode_demand(e, 0, 0, 2, 1))?;
    say(rt, demand::mode_demand(e, 0, 1, 0, 1))?;
    say(rt, demand::mode_demand(e, 18446744073709551615, 0, 0, 1))?;
    say(rt, demand::mode_demand(b"HZ", 9, 0, 0, 1))?;
    Ok(())
}

// C, and the two modules of sheet A for 3 ticks, which the quick test adds up to 4.
fn states(rt: &HostRuntime) -> io::Result<()> {
    let a =
        b"HZ\x08\x00ML\x01\x00MD\x04\x00TK\x00\x00\x02\x00\x03\x00\x04\x00ML\x02\x00MD\x04\x00TK\x00\x00\x01\x00\x04\x00\x04\x00SW\x01\x00\x04\x00MD\x04\x00TK\x01\x00\x02\x00\x02\x00\x04\x00EN\x0a\x00";
    let mut work = [0u32; judge::Sheet::WORK_NUMBERS];
    say(rt, states::state_demand(a, 1, 0, 1, 5, &mut work))?;
    say(rt, states::state_demand(a, 1, 0, 1, 6, &mut work))?;
    say(rt, states::state_demand(a, 1, 0, 4, 6, &mut work))?;
    say(rt, states::state_demand(a, 1, 0, 1, 9, &mut work))?;
    say(rt, states::state_demand(a, 2, 0, 0, 1, &mut work))?;
    say(rt, states::module_demand(a, 0, 3, &mut work))?;
    say(rt, states::module_demand(a, 1, 3, &mut work))?;
    say(rt, states::module_demand(a, 1, 0, &mut work))?;
    say(rt, states::module_demand(a, 1, 8, &mut work))?;
    let mut short = [0u32; 8];
    say(rt, states::module_demand(a, 1, 8, &mut short))?;
    say(rt, states::module_demand(a, 2, 8, &mut short))?;
    say(rt, states::module_demand(b"", 2, 8, &mut short))?;
    Ok(())
}

// Request b: the factory mode, mode 2 of module 0, is in no module demand, and its own state demand is answered.
fn factory(rt: &HostRuntime) -> io::Result<()> {
    let sheet =
        b"HZ\x08\x00ML\x03\x00MD\x04\x00TK\x00\x00\x01\x00\x04\x00\x04\x00SW\x01\x00\x04\x00MD\x04\x00TK\x00\x00\x02\x00\x04\x00\x04\x00SW\x00\x00\x04\x00MD\x04\x00TK\x00\x00\x04\x00\x04\x00\x04\x00SW\x00\x00\x04\x00ML\x01\x00MD\x04\x00TK\x00\x00\x02\x00\x04\x00\x04\x00EN\x0e\x00";
    let mut work = [0u32; judge::Sheet::WORK_NUMBERS];
    say(rt, states::module_demand(sheet, 0, 4, &mut work))?;
    say(rt, states::module_demand(sheet, 1, 4, &mut work))?;
    say(rt, states::state_demand(sheet, 0, 2, 0, 4, &mut work))?;
    Ok(())
}

fn main(rt: HostRuntime) -> io::Result<()> {
    modes(&rt)?;
    states(&rt)?;
    factory(&rt)?;
    Ok(())
}
