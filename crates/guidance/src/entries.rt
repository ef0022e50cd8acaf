// The calls on a guidance: it goes in by value and comes back with the answer.
ghost use Rattle.std.specs.Prelude.{◌≡◌};
ghost use Rattle.laws.specs.declared.types.ControlInput.TheVariants as input;
ghost use Rattle.guidance.specs.Plane as spec;
ghost use Rattle.guidance.specs.Promises as contract;

use crate::commands::{absolute_attitude, absolute_rate, neutral, rates, sticks};
use crate::plane::{
    Answer, FlightMode, FlightModeReport, Former, GuideCall, Guided, ModeRefusal, PlaneGuidance,
    WaypointCall,
};
use crate::waypoint::{refusal, waypoint};
use laws::config::{InvalidConfig, PlaneGuidanceConfig, validate};
use laws::navigation::PiLoop;
use laws::tecs::reset;
use laws::types::{ControlInput, FlightRegime, Setpoint, VehicleState};
use refusals::Refusal;

// The energy state and the altitude loop as `new` makes them.
#[tactic(auto, unfolding(crate::specs::Plane::cleared))]
fn cleared(g: PlaneGuidance, requested: u32) -> PlaneGuidance
    ensures { result ≡ spec.cleared g requested }
{
    PlaneGuidance {
        requested,
        altitude: PiLoop::default(),
        tecs: reset(),
        ..g
    }
}

// The navigation loops are idle: they are cleared, so that waypoint flight starts fresh.
#[tactic(auto, unfolding(crate::specs::Plane::commanded))]
fn commanded(g: PlaneGuidance, regime: FlightRegime, setpoint: Setpoint) -> Guided
    ensures { result ≡ spec.commanded g regime setpoint }
{
    Guided {
        guidance: cleared(g, regime as u32),
        answer: Ok(Answer::Commanded(setpoint)),
    }
}

#[tactic(auto, unfolding(crate::specs::Plane::obeyed))]
fn obeyed(g: PlaneGuidance, call: GuideCall<ControlInput>) -> Guided
    ensures { result ≡ spec.obeyed g call.dt call.regime call.command call.state call.cap }
{
    let setpoint = match call.command {
        ControlInput::Attitude(command) => sticks(g.config, command),
        ControlInput::Rate(command) => rates(g.config, command),
        ControlInput::Waypoint(command) => return waypoint::<false>(g, call.with(command)),
        ControlInput::AbsoluteAttitude(command) => absolute_attitude(command),
        ControlInput::Land => neutral(),
        ControlInput::AbsoluteRate(command) => absolute_rate(command),
    };
    commanded(g, call.regime, setpoint)
}

impl PlaneGuidance {
    pub fn new(config: PlaneGuidanceConfig) -> Result<PlaneGuidance, InvalidConfig>
        ensures { contract.Creates config result }
    {
        validate(config)?;
        Ok(PlaneGuidance {
            config,
            requested: FlightRegime::Plane as u32,
            altitude: PiLoop::default(),
            tecs: reset(),
            former: Former::default(),
        })
    }

    // The reference answer: a waypoint's pitch is held within the cap either way, where there is one. Its parameters, and `guide`'s, are
    // the Rust's own, a rule of the project.
    #[tactic(auto, using(crate::proofs::plane::Contracts::guides), unfolding(crate::specs::Plane::guided))]
    pub fn guide_capped(
        self,
        dt: f32,
        regime: FlightRegime,
        input: ControlInput,
        state: VehicleState,
        pitch_cap_rad: Option<f32>,
    ) -> Guided
        ensures { contract.Guides self dt regime input state pitch_cap_rad result }
    {
        if (dt > 0.0) & dt.is_finite() {
            let call = GuideCall {
                dt,
                regime,
                command: input,
                state,
                cap: pitch_cap_rad,
            };
            obeyed(self, call)
        } else {
            refusal(self, Refusal::TimeStep)
        }
    }

    // A waypoint's `guide_capped` for steps that follow each other, as a drawn path's do.
    #[tactic(auto, using(crate::proofs::plane::Contracts::guides), unfolding(crate::specs::Plane::guided))]
    pub fn guide_step(self, call: WaypointCall) -> Guided
        ensures { contract.Guides self call.dt call.regime (input.Waypoint call.command) call.state call.cap result }
    {
        if (call.dt > 0.0) & call.dt.is_finite() {
            waypoint::<true>(self, call)
        } else {
            refusal(self, Refusal::TimeStep)
        }
    }

    pub fn guide(
        self,
        dt: f32,
        regime: FlightRegime,
        input: ControlInput,
        state: VehicleState,
    ) -> Guided
        ensures { contract.Guides self dt regime input state None result }
    {
        self.guide_capped(dt, regime, input, state, None)
    }

    // Clears the navigation loops: integrals, demands and underspeed.
    #[tactic(auto, unfolding(crate::specs::Plane::primed))]
    pub fn prime(self) -> PlaneGuidance
        ensures { result ≡ spec.primed self }
    {
        cleared(self, self.requested)
    }

    // The guidance after the change, which keeps the configuration that it replaces, to be taken back. Refused, the caller's stays.
    #[tactic(auto, using(crate::proofs::plane::Contracts::accepted_config), unfolding(crate::specs::Plane::configured, crate::specs::Plane::with_config))]
    pub fn set_config(self, config: PlaneGuidanceConfig) -> Result<PlaneGuidance, InvalidConfig>
        ensures { result ≡ spec.configured self config }
    {
        validate(config)?;
        Ok(PlaneGuidance {
            config,
            former: Former {
                kept: 1,
                config: self.config,
            },
            ..self
        })
    }

    // Document 02, K11: the configuration before the last accepted change is in force again and is forgotten; the integrals stay.
    #[tactic(auto, unfolding(crate::specs::Plane::taken_back, crate::specs::Plane::restored, crate::specs::Plane::no_former))]
    pub fn take_back(self) -> Result<PlaneGuidance, Refusal>
        ensures { result ≡ spec.taken_back self }
    {
        if self.former.kept == 0 {
            return Err(Refusal::NothingToTakeBack);
        }
        Ok(PlaneGuidance {
            config: self.former.config,
            former: Former::default(),
            ..self
        })
    }

    // As FlightModeReport::plane_only: always plane; a copter request is refused as unsupported.
    #[tactic(auto, unfolding(crate::specs::Plane::flight_mode))]
    pub fn flight_mode(self) -> FlightModeReport
        ensures { result ≡ spec.flight_mode self }
    {
        FlightModeReport {
            mode: FlightMode::Plane,
            refusal: (self.requested == 0).then_some(ModeRefusal::Unsupported),
        }
    }

    // Takes over what a call's answer changes: no guide call or prime changes a configuration, so they are not copied.
    pub fn take_over(&mut self, after: PlaneGuidance)
        ensures { self.new ≡ spec.taken_over self.old after }
    {
        self.requested = after.requested;
        self.altitude = after.altitude;
        self.tecs = after.tecs;
    }

    // Whether the stall guard stands: underspeed, as the energy state has it.
    pub fn stall_guard(self) -> bool
        ensures { result ≡ spec.stall_guard self }
    {
        self.tecs.underspeed != 0
    }

    // The configuration in force.
    pub fn config(self) -> PlaneGuidanceConfig
        ensures { result ≡ self.config }
    {
        self.config
    }
}
