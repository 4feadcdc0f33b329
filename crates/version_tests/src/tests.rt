// Tables of calls, with the answers worked out by hand.
use crate::{Step, run};
use std::test::Fail;
use swan_model::Mode;

/// Lets go what may be sent to another thread.
fn let_go<T: Send + Drop>(_value: T) {}

#[test]
fn a_parent_waits_for_what_its_child_owes(rt: HostRuntime) -> Result<(), Fail> {
    run(
        rt.alloc(),
        &[
            Step::Create(0, 0, 4),
            Step::Access(0, 0, 1, 0, Mode::Out),
            Step::Reads(0, 0, Err(1)),
            Step::Reads(1, 0, Ok(0)),
            Step::Write(1, 0, 9),
            Step::Reads(0, 0, Err(1)),
            Step::Finish(1),
            Step::Reads(0, 0, Ok(9)),
        ],
    )?;
    Ok(())
}

#[test]
fn what_a_parent_writes_meanwhile_stays(rt: HostRuntime) -> Result<(), Fail> {
    run(
        rt.alloc(),
        &[
            Step::Create(0, 0, 4),
            Step::Access(0, 0, 1, 0, Mode::Out),
            Step::Write(0, 0, 7),
            Step::Write(1, 0, 9),
            Step::Finish(1),
            Step::Reads(0, 0, Ok(7)),
        ],
    )?;
    Ok(())
}

#[test]
fn the_zero_is_of_the_kind_of_the_first_value(rt: HostRuntime) -> Result<(), Fail> {
    run(
        rt.alloc(),
        &[
            Step::CreateRecord(0, 0, [97, 98]),
            Step::Write(0, 0, 4),
            Step::Access(0, 0, 1, 0, Mode::Out),
            Step::ReadsRecord(1, 0, 0),
        ],
    )?;
    Ok(())
}

#[test]
fn a_writer_waits_for_no_reader(rt: HostRuntime) -> Result<(), Fail> {
    run(
        rt.alloc(),
        &[
            Step::Create(0, 0, 0),
            Step::Write(0, 0, 4),
            Step::Access(0, 0, 1, 0, Mode::In),
            Step::Access(0, 0, 2, 0, Mode::Out),
            Step::Access(0, 0, 3, 0, Mode::In),
            Step::Reads(1, 0, Ok(4)),
            Step::Ready(1, Ok(())),
            Step::Ready(2, Ok(())),
            Step::Ready(3, Err(2)),
            Step::Write(2, 0, 9),
            Step::Ready(3, Err(2)),
            Step::Finish(2),
            Step::Ready(3, Ok(())),
            Step::Reads(3, 0, Ok(9)),
            Step::Reads(0, 0, Ok(9)),
            Step::Reads(1, 0, Ok(4)),
            Step::Finish(1),
            Step::Finish(3),
            Step::Finish(0),
            Step::Reads(0, 0, Ok(9)),
        ],
    )?;
    Ok(())
}

#[test]
fn each_of_a_chain_adds_one(rt: HostRuntime) -> Result<(), Fail> {
    run(
        rt.alloc(),
        &[
            Step::Create(0, 0, 0),
            Step::Access(0, 0, 1, 0, Mode::InOut),
            Step::Access(0, 0, 2, 0, Mode::InOut),
            Step::Access(0, 0, 3, 0, Mode::InOut),
            Step::Ready(3, Err(2)),
            Step::Ready(1, Ok(())),
            Step::Reads(1, 0, Ok(0)),
            Step::Write(1, 0, 1),
            Step::Finish(1),
            Step::Ready(2, Ok(())),
            Step::Reads(2, 0, Ok(1)),
            Step::Write(2, 0, 2),
            Step::Finish(2),
            Step::Ready(3, Ok(())),
            Step::Reads(3, 0, Ok(2)),
            Step::Write(3, 0, 3),
            Step::Finish(3),
            Step::Reads(0, 0, Ok(3)),
        ],
    )?;
    Ok(())
}

#[test]
fn the_last_of_three_writes_stays(rt: HostRuntime) -> Result<(), Fail> {
    run(
        rt.alloc(),
        &[
            Step::Create(0, 0, 0),
            Step::Access(0, 0, 1, 0, Mode::InOut),
            Step::Write(1, 0, 1),
            Step::Write(1, 0, 2),
            Step::Write(1, 0, 3),
            Step::Reads(1, 0, Ok(3)),
            Step::Reads(0, 0, Err(1)),
            Step::Finish(1),
            Step::Reads(0, 0, Ok(3)),
        ],
    )?;
    Ok(())
}

#[test]
fn a_chain_that_waits_is_let_go(rt: HostRuntime) -> Result<(), Fail> {
    let_go(run(
        rt.alloc(),
        &[
            Step::Create(0, 0, 0),
            Step::Access(0, 0, 1, 0, Mode::InOut),
            Step::Access(0, 0, 2, 0, Mode::InOut),
            Step::Access(0, 0, 3, 0, Mode::InOut),
        ],
    )?);
    Ok(())
}
