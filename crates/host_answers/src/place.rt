// What a writer of a record answers to a host.
ghost use Rattle.std.specs.Prelude.{◌≡◌};
ghost use Rattle.host_answers.specs.Place as spec;

use refusals::Refusal;

// For C. refusal: 0 or the refusal's number; next: the place after the record, 0 where there is none.
#[repr(C)]
#[derive(Clone, Copy)]
pub struct Place {
    pub refusal: u32,
    pub next: usize,
}

impl From<Result<usize, Refusal>> for Place {
    ghost from_gives = { λ written p. p ≡ spec.place_of written };

    fn from(written: Result<usize, Refusal>) -> Place {
        match written {
            Ok(next) => Place { refusal: 0, next },
            Err(why) => Place {
                refusal: why.number(),
                next: 0,
            },
        }
    }
}
