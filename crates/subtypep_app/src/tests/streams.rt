// Sources and sinks that fail in mid-stream, and a run in which nothing fails.

use super::{Case, RANGES, RANGES_REPORT, outcome_of};
use crate::status::Status;
use std::test::Fail;

#[test]
fn ample_memory_is_enough(rt: HostRuntime) -> Result<(), Fail> {
    let got = outcome_of(rt.alloc(), &Case::ask(RANGES))?;
    assert!(rt; got.status != Status::Memory);
    assert_eq!(rt; got.left, 0);
    Ok(())
}

#[test]
fn each_read_fails_in_turn(rt: HostRuntime) -> Result<(), Fail> {
    // So many calls read the text and find its end, by the bytes that a call gives.
    let pieces = [(1, 45), (2, 23)];
    for (piece, calls) in pieces {
        for number in 1..=calls {
            let failing: [u64; 1] = [number];
            let mut case = Case::ask(RANGES);
            case.read_piece = piece;
            case.failing_reads = &failing;
            let got = outcome_of(rt.alloc(), &case)?;
            assert_eq!(rt; got.status, Status::SourceFault);
            assert_eq!(rt; got.bytes.len(), 0);
        }
        let mut case = Case::ask(RANGES);
        case.read_piece = piece;
        let got = outcome_of(rt.alloc(), &case)?;
        assert_eq!(rt; got.status, Status::Clean);
        assert_eq!(rt; got.bytes.as_slice(), RANGES_REPORT);
    }
    Ok(())
}

#[test]
fn each_write_fails_in_turn(rt: HostRuntime) -> Result<(), Fail> {
    // So many calls write the report, by the bytes that a call takes.
    let pieces = [(1, 18), (2, 9)];
    for (piece, calls) in pieces {
        let mut taken = 0;
        for number in 1..=calls {
            let failing: [u64; 1] = [number];
            let mut case = Case::ask(RANGES);
            case.write_piece = piece;
            case.failing_writes = &failing;
            let got = outcome_of(rt.alloc(), &case)?;
            assert_eq!(rt; got.status, Status::SinkFault);
            assert_eq!(rt; got.bytes.len(), taken);
            assert!(rt; RANGES_REPORT.starts_with(&got.bytes));
            taken += piece;
        }
        let mut case = Case::ask(RANGES);
        case.write_piece = piece;
        let got = outcome_of(rt.alloc(), &case)?;
        assert_eq!(rt; got.status, Status::Clean);
        assert_eq!(rt; got.bytes.as_slice(), RANGES_REPORT);
    }
    Ok(())
}

#[test]
fn a_failed_write_leaves_a_prefix(rt: HostRuntime) -> Result<(), Fail> {
    let mut case = Case::ask(RANGES);
    case.write_piece = 2;
    case.failing_writes = &[2];
    let got = outcome_of(rt.alloc(), &case)?;
    assert_eq!(rt; got.status, Status::SinkFault);
    assert_eq!(rt; got.bytes.as_slice(), b"1:".as_slice());
    case.failing_writes = &[];
    case.room = 5;
    let got = outcome_of(rt.alloc(), &case)?;
    assert_eq!(rt; got.status, Status::SinkFault);
    assert_eq!(rt; got.bytes.as_slice(), b"1:1 ".as_slice());
    Ok(())
}
