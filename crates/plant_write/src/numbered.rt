// What is read, and what is written, by a number: it may be any number, and not a refusal's alone.
ghost use Rattle.std.specs.Prelude.{◌≡◌};
ghost use Rattle.plant_def.specs.Views.{done_as};
ghost use Rattle.plant_def.specs.Needs.{WritesRead};
ghost use Rattle.plant_write.specs.Told.{read_told, done_told};

use crate::write_plant;
use plant_def::Plant;
use plant_def::limits::LONGEST_FILE;
use plant_def::refusal::Refusal;

// What a reader hands over: 0 and the plant, or a number and a plant without units or streams.
#[derive(Clone, Copy)]
pub struct Read {
    pub number: u8,
    pub plant: Plant,
}

// What a writer hands over: 0 and the bytes written, or a number and 0.
#[derive(Clone, Copy)]
pub struct Done {
    pub number: u8,
    pub written: usize,
}

// A writer's result by its number.
pub fn by_number(made: Result<usize, Refusal>) -> Done
    ensures { done_told result ≡ done_as made }
{
    match made {
        Ok(written) => Done { number: 0, written },
        Err(refusal) => Done {
            number: refusal.number(),
            written: 0,
        },
    }
}

// What was read, written as the plant writer writes it; or 1 for a slice that is too short, or the reading's number.
pub fn write_read(read: Read, out: &mut [u8]) -> Done
    ensures { WritesRead (read_told read) out.old out.new (done_told result) }
{
    if LONGEST_FILE > out.len() {
        return Done {
            number: 1,
            written: 0,
        };
    }
    if read.number != 0 {
        return Done {
            number: read.number,
            written: 0,
        };
    }
    by_number(write_plant(&read.plant, out))
}
