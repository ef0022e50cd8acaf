// Runs the laws on the rows of data/ and counts those that they answer as the rows say, bit for bit, every NaN alike. The files
// named after a law have the oracle's rows (tools/oracle/fixed/README.md says what is in one); those of documents 01's and 02's cases are
// made by tools/vectors/laws.py.
#![tactic(auto)]

mod check;

use case_rows::{Row, try_group};
use laws::{math, navigation};
use std::io;

fn main(rt: HostRuntime) -> io::Result<()> {
    let saturate_unit = |row: &Row| check::of_one(row, math::saturate_unit);
    let saturate_symmetric = |row: &Row| check::of_two(row, math::saturate_symmetric);
    let saturate_throttle = |row: &Row| check::of_one(row, math::saturate_throttle);
    let limit_or_zero = |row: &Row| check::of_one(row, math::limit_or_zero);
    let clamp_symmetric = |row: &Row| check::of_two(row, math::clamp_symmetric);
    let bank_for_accel = |row: &Row| check::of_one(row, navigation::bank_for_accel_rad);
    let mut total = try_group(&rt, "saturate_unit", 2, saturate_unit)?;
    total += try_group(&rt, "saturate_symmetric", 3, saturate_symmetric)?;
    total += try_group(&rt, "saturate_throttle", 2, saturate_throttle)?;
    total += try_group(&rt, "limit_or_zero", 2, limit_or_zero)?;
    total += try_group(&rt, "clamp_symmetric", 3, clamp_symmetric)?;
    total += try_group(&rt, "lagged", 5, check::lagged)?;
    total += try_group(&rt, "l1", 5, check::l1)?;
    total += try_group(&rt, "track_accel_mps2", 11, check::track)?;
    total += try_group(&rt, "loiter_accel_mps2", 10, check::loiter)?;
    total += try_group(&rt, "bank_for_accel_rad", 2, bank_for_accel)?;
    total += try_group(&rt, "pi_step", 11, check::pi_step)?;
    total += try_group(&rt, "update_underspeed", 19, check::update_underspeed)?;
    total += try_group(&rt, "energies", 49, check::energies)?;
    total += try_group(&rt, "thrust", 50, check::thrust)?;
    total += try_group(&rt, "pitch", 49, check::pitch)?;
    total += try_group(&rt, "tecs_step", 49, check::tecs_step)?;
    total += try_group(&rt, "validate", 34, check::validate)?;
    total += try_group(&rt, "default", 33, check::default)?;
    total += try_group(&rt, "document_01_saturate_unit", 2, saturate_unit)?;
    total += try_group(&rt, "document_01_clamp_symmetric", 3, clamp_symmetric)?;
    total += try_group(&rt, "document_01_lagged", 5, check::lagged)?;
    total += try_group(&rt, "document_01_pi_step", 11, check::pi_step)?;
    total += try_group(
        &rt,
        "document_01_update_underspeed",
        19,
        check::update_underspeed,
    )?;
    total += try_group(&rt, "document_01_validate", 34, check::validate)?;
    total += try_group(&rt, "document_02_validate", 34, check::validate)?;
    println!(rt; "total: {total}")
}
