// The survey of meter layouts, counted over the sets of a plant's streams: the call.
#![tactic(auto)]

ghost use Rattle.std.specs.Prelude.{◌≡◌, ℕ, ◌^◌, ◌≤◌, ◌<◌, length, get_or, take, Ok};
ghost use Rattle.plant_def.specs.Within.{Accepted};
ghost use Rattle.survey_def.specs.Says.{max_surveyed, survey_size, Surveyed, SurveySays};
ghost use Rattle.survey_def.specs.Views.{layouts_as};
ghost use Rattle.survey_def.specs.Inner.{each_meets, ones, count_below, Few, Surveyable};
ghost use Rattle.plant_def.specs.Says.{plant_of};

use flow_components::{one_label, own_numbers, step};
use plant_def::refusal::Refusal;
use plant_def::{Plant, Stream};
use survey_def::{Layouts, MAX_SURVEYED, SURVEY_SIZE};

// The first streams of a plant, as many as are surveyed.
pub fn first_streams(plant: Plant) -> [Stream; MAX_SURVEYED]
    requires { Accepted plant }
    ensures { result ≡ take max_surveyed plant.streams }
{
    let mut streams = [plant.streams[0]; MAX_SURVEYED];
    streams.copy_from_slice(&plant.streams[..MAX_SURVEYED]);
    streams
}

// How many of the first n bits of a number are 1.
fn ones_of(m: u16, n: usize) -> usize
    requires { n ≤ max_surveyed }
    ensures { (result ≡ ones n m) × (result < survey_size) }
{
    let mut size: usize = 0;
    for j in 0..n {
        size += (m >> j) as usize % 2;
    }
    size
}

// Whether the streams without a meter have no loop: each joins two groups when it is met, so that none is withheld.
fn leaves_none(streams: &[Stream], m: u16) -> bool
    requires { Surveyable streams.now }
    ensures { result ≡ each_meets m streams.now }
{
    let mut labels = own_numbers();
    for (j, s) in streams.iter().enumerate() {
        let bare = (m >> j) % 2 == 0;
        if bare && one_label(&labels, *s) {
            return false;
        }
        step(&mut labels, *s, bare);
    }
    true
}

// For each size, how many sets of that size leave none withheld.
pub fn count_all(streams: [Stream; MAX_SURVEYED], n: usize) -> [u16; SURVEY_SIZE]
    requires { Few n streams }
    ensures { (length result ≡ survey_size) × ((k : ℕ) → k < survey_size → get_or result k 0 ≡ count_below (take n streams) k (2 ^ n)) }
{
    let top = 1u16 << n;
    let mut counts = [0u16; SURVEY_SIZE];
    for m in 0..top {
        if leaves_none(&streams[..n], m) {
            counts[ones_of(m, n)] += 1;
        }
    }
    counts
}

// The survey of a plant.
fn survey(plant: Plant) -> Layouts
    requires { Accepted plant × (plant.count ≤ max_surveyed) }
    ensures { Surveyed (plant_of plant) (layouts_as (Ok result)) }
{
    Layouts {
        count: plant.count,
        counts: count_all(first_streams(plant), plant.count as usize),
    }
}

// For a plant file of at most 12 streams, whichever are metered: how many choices of k metered streams leave none withheld, for
// each k from 0 to the number of streams; or a refusal.
pub fn layouts_of(file: &[u8]) -> Result<Layouts, Refusal>
    ensures { SurveySays file.now (layouts_as result) }
{
    let plant = plant_read::read_plant(file)?;
    if MAX_SURVEYED < plant.count as usize {
        return Err(Refusal::TooManyToSurvey);
    }
    Ok(survey(plant))
}
