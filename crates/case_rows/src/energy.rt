// The energy state in a row.
ghost use Rattle.std.specs.Prelude.{◌≡◌, ◌∷◌, []};
ghost use Rattle.std.specs.Float.{binary32};
ghost use Rattle.std.specs.Float.Ieee.{to_bits};

use fields::bytes::to_bits;
use laws::tecs::Tecs;

// Its nine words: two flags as they are, and the bits of its numbers between them.
pub fn energy_words(t: Tecs) -> [u32; 9]
    ensures { result ≡ t.seeded
        ∷ to_bits binary32 t.demand.slewed_height_m ∷ to_bits binary32 t.demand.height_m ∷ to_bits binary32 t.demand.airspeed_mps
        ∷ to_bits binary32 t.filtered_airspeed_mps ∷ to_bits binary32 t.steady_accel_mps2
        ∷ to_bits binary32 t.pitch_integral_rad ∷ to_bits binary32 t.thrust_integral
        ∷ t.underspeed ∷ [] }
{
    [
        t.seeded,
        to_bits(t.demand.slewed_height_m),
        to_bits(t.demand.height_m),
        to_bits(t.demand.airspeed_mps),
        to_bits(t.filtered_airspeed_mps),
        to_bits(t.steady_accel_mps2),
        to_bits(t.pitch_integral_rad),
        to_bits(t.thrust_integral),
        t.underspeed,
    ]
}
