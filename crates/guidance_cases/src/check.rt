// Runs a row's call, and says whether the answer and the stored state are the row's.
use crate::calls::{Call, Guide};
use case_rows::energy::energy_words;
use case_rows::{Row, to_bits};
use guidance::plane::{Answer, Guided, PlaneGuidance};
use laws::types::Setpoint;
use refusals::Refusal;

// Whether words 37 on are the setpoint's: 1 for a plane setpoint and 2 for a rate setpoint, and its numbers.
fn is_setpoint(row: &Row, setpoint: Setpoint) -> bool {
    match setpoint {
        Setpoint::Plane {
            roll_rad,
            pitch_rad,
            thrust,
        } => row.words[37] == 1 && row.has(38, [roll_rad, pitch_rad, thrust]),
        Setpoint::PlaneRate {
            roll_radps,
            pitch_radps,
            yaw_radps,
            thrust,
        } => row.words[37] == 2 && row.has(38, [roll_radps, pitch_radps, yaw_radps, thrust]),
    }
}

// Words 34 to 41, as far as the answer has them: a refusal's number, or 0; the laws, numbered from 1 in the order in which they are
// declared, or 0 in place of the lateral one; the setpoint; of a waypoint the distance off the line.
fn is_answer(row: &Row, answer: Result<Answer, Refusal>) -> bool {
    match answer {
        Err(refusal) => row.words[34] == refusal.number(),
        Ok(Answer::Commanded(setpoint)) => row.words(34) == [0, 0] && is_setpoint(row, setpoint),
        Ok(Answer::Waypoint(w)) => {
            let lateral = w.laws.lateral as u32 + 1;
            let vertical = w.laws.vertical as u32 + 1;
            row.words(34) == [0, lateral, vertical]
                && is_setpoint(row, w.setpoint)
                && row.has(41, [w.cross_track_m])
        }
    }
}

// Words 42 to 52.
fn is_state(row: &Row, g: &PlaneGuidance) -> bool {
    let stored = [g.requested, to_bits(g.altitude.integral)];
    row.words(42) == stored && row.words(44) == energy_words(g.tecs)
}

// The mode report, as the Rust numbers it, and the stall guard, which stands where the oracle's stored underspeed does.
fn is_report(row: &Row, g: &PlaneGuidance) -> bool {
    let report = g.flight_mode();
    let words = [report.mode as u32, u32::from(report.refusal.is_some())];
    row.words(25) == words && g.stall_guard() == (row.words[52] != 0)
}

// `guide` where the row has no cap.
fn guided(g: &PlaneGuidance, c: Guide) -> Guided {
    match c.cap {
        None => g.guide(c.dt, c.regime, c.command, c.state),
        cap => g.guide_capped(c.dt, c.regime, c.command, c.state, cap),
    }
}

// Takes over what a change makes of the guidance; the number that it is refused with, or 0, as the row has it.
fn take_over(g: &mut PlaneGuidance, changed: Result<PlaneGuidance, u32>) -> u32 {
    match changed {
        Ok(after) => {
            *g = after;
            0
        }
        Err(number) => number,
    }
}

// Makes a row's call on the guidance that the row before it left. A refused `new` leaves it, and says nothing of its state.
pub fn try_call(row: &Row, g: &mut PlaneGuidance) -> bool {
    match Call::of(row) {
        Call::Prime => {
            *g = g.prime();
            is_state(row, g) && is_report(row, g)
        }
        Call::Guide(c) => {
            let after = guided(g, c);
            *g = after.guidance;
            is_answer(row, after.answer) && is_state(row, g) && is_report(row, g)
        }
        Call::SetConfig(config) => {
            let changed = g.set_config(config).map_err(|invalid| invalid.field);
            take_over(g, changed) == row.words[34] && is_state(row, g)
        }
        Call::New(config) => match PlaneGuidance::new(config) {
            Ok(made) => {
                *g = made;
                row.words[34] == 0 && is_state(row, g)
            }
            Err(invalid) => row.words[34] == invalid.field,
        },
        Call::TakeBack => {
            let changed = g.take_back().map_err(|refusal| refusal.number());
            take_over(g, changed) == row.words[34] && is_state(row, g)
        }
    }
}
