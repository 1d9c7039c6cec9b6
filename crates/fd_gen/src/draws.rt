ghost use Rattle.std.specs.Prelude.{◌≡◌, ◌<◌, IfOk};
ghost use Rattle.fd_gen.specs.Draws.{draw as draw_of, several, sample_of, choices_of};

use fd_lists::{Items, NoMemory};
use rand_core::utils::NextWord;
use rand_pcg::Pcg32;
use std::alloc::Global;

/// How many functions there are, from 0 on.
pub(crate) const FUNCTIONS: u32 = 50;

/// A stack of functions, the leaf first, and its value, in nanoseconds.
#[derive(Drop)]
pub(crate) struct Sample {
    pub(crate) functions: Items<u32>,
    pub(crate) value: u32,
}

/// What is drawn for one body.
#[derive(Drop)]
pub(crate) struct Choices {
    pub(crate) job: u32,
    pub(crate) is_production: bool,
    pub(crate) samples: Items<Sample>,
}

/// A number below `end`.
fn draw(rng: &mut Pcg32, end: u32) -> u32
    requires { 0 < end }
    ensures { (result, rng.new) ≡ draw_of end rng.old }
{
    rng.next_word() % end
}

/// So many functions.
fn draw_functions(alloc: Global, rng: &mut Pcg32, count: u32) -> Result<Items<u32>, NoMemory>
    ensures { IfOk result (λ functions. (functions, rng.new) ≡ several count (draw_of 50) rng.old) }
{
    let mut functions = Items::new(alloc);
    for _ in 0..count {
        functions.push(draw(rng, FUNCTIONS))?;
    }
    Ok(functions)
}

/// A sample.
fn draw_sample(alloc: Global, rng: &mut Pcg32) -> Result<Sample, NoMemory>
    ensures { IfOk result (λ sample. (sample, rng.new) ≡ sample_of rng.old) }
{
    let depth = 1 + draw(rng, 8);
    let functions = draw_functions(alloc, rng, depth)?;
    let value = 1 + draw(rng, 1000);
    Ok(Sample { functions, value })
}

/// So many samples.
fn draw_samples(alloc: Global, rng: &mut Pcg32, count: u32) -> Result<Items<Sample>, NoMemory>
    ensures { IfOk result (λ samples. (samples, rng.new) ≡ several count sample_of rng.old) }
{
    let mut samples = Items::new(alloc);
    for _ in 0..count {
        samples.push(draw_sample(alloc, rng)?)?;
    }
    Ok(samples)
}

/// What is drawn for the next body. At want of memory some of it was drawn.
pub(crate) fn draw_choices(alloc: Global, rng: &mut Pcg32) -> Result<Choices, NoMemory>
    ensures { IfOk result (λ choices. (choices, rng.new) ≡ choices_of rng.old) }
{
    let job = draw(rng, 4);
    let is_production = draw(rng, 2) == 1;
    let count = 1 + draw(rng, 20);
    let samples = draw_samples(alloc, rng, count)?;
    Ok(Choices {
        job,
        is_production,
        samples,
    })
}
