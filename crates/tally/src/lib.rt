// The template report: an image's bundles counted by their tags, and images added up.
#![tactic(auto)]

mod lines;

ghost use Rattle.std.specs.Prelude.{◌≡◌, [], ◌++◌, ◌+◌, ◌/◌, ◌≤◌, ◌<◌, length, replicate};
ghost use Rattle.answer.specs.Answer.{answer_of};
ghost use Rattle.bundle.specs.Bundle.{longest_code};
ghost use Rattle.tally.specs.Report.{Added, tags_to, tags_of, counts_of, report_of, added_by, added_of};
ghost use Rattle.tally.specs.inner.Share.{Few, tag_shares, shares_of};

use answer::Refusal;
use bundle::{Halves, LONGEST_CODE};
pub use lines::put_report;

// How many tags there are, and where the numbers after theirs stand: a report is the 36 numbers that `report_of` says.
const BUNDLES: usize = 32;

const RESERVED: usize = 33;

const STOPS: usize = 34;

const REST: usize = 35;

// How many numbers a report has.
pub const NUMBERS: usize = 36;

// No report's text is longer.
pub const CAPACITY: usize = 870;

// Adds an image's report to a report, which is left as it was where that is refused.
pub fn add(report: &mut [u64; NUMBERS], image: &[u8]) -> Result<(), Refusal>
    ensures { ◌≡◌ {A = Added} (record { answer = answer_of result; report = report.new }) (added_of report.old image.now) }
{
    if LONGEST_CODE < image.len() {
        return Err(Refusal::TooLong);
    }
    add_up(report, report_of(image))
}

// The sum of two reports; refused where a number of it takes more than 64 bits.
fn add_up(report: &mut [u64; NUMBERS], more: [u64; NUMBERS]) -> Result<(), Refusal>
    ensures { ◌≡◌ {A = Added} (record { answer = answer_of result; report = report.new }) (added_by [] report.old more) }
{
    let mut sums = *report;
    for (i, gets) in more.iter().enumerate() {
        let Some(sum) = report[i].checked_add(*gets) else {
            return Err(Refusal::BadValue);
        };
        sums[i] = sum;
    }
    *report = sums;
    Ok(())
}

// The report of an image.
fn report_of(image: &[u8]) -> [u64; NUMBERS]
    requires { length image.now ≤ longest_code }
    ensures { result ≡ report_of image.now }
{
    let mut report = by_tag(image);
    let shares = shares_of(&report);
    report[BUNDLES] = (image.len() / 16) as u64;
    report[RESERVED] = shares.reserved;
    report[STOPS] = shares.stops;
    report[REST] = (image.len() % 16) as u64;
    report
}

// The counts of the tags, and zeros after them; four bundles a turn, which is faster.
fn by_tag(image: &[u8]) -> [u64; NUMBERS]
    requires { length image.now ≤ longest_code }
    ensures { result ≡ counts_of (tags_of image.now) ++ replicate 4 0 }
{
    let mut counts = [0u64; NUMBERS];
    let bundles = image.len() / 16;
    let turns = bundles / 4;
    for turn in 0..turns {
        count(&mut counts, image, 4 * turn);
        count(&mut counts, image, 4 * turn + 1);
        count(&mut counts, image, 4 * turn + 2);
        count(&mut counts, image, 4 * turn + 3);
    }
    for n in 4 * turns..bundles {
        count(&mut counts, image, n);
    }
    counts
}

// Counts bundle `n`, where those before it are counted.
fn count(counts: &mut [u64; NUMBERS], image: &[u8], n: usize)
    requires { (length image.now ≤ longest_code) × (n < length image.now / 16) × (counts.old ≡ counts_of (tags_to image.now n) ++ replicate 4 0) }
    ensures { counts.new ≡ counts_of (tags_to image.now (n + 1)) ++ replicate 4 0 }
{
    let tag = (image[16 * n] % 32) as usize;
    counts[tag] += 1;
}

// What bundles add to the reserved ones and the stops.
#[derive(Clone, Copy)]
pub struct Shares {
    pub reserved: u64,
    pub stops: u64,
}

// What so many bundles of each tag add.
fn shares_of(counts: &[u64; NUMBERS]) -> Shares
    requires { Few counts.now }
    ensures { result ≡ shares_of counts.now }
{
    let mut reserved = 0;
    let mut stops = 0;
    for tag in 0..BUNDLES {
        let many = counts[tag];
        let one = share(tag as u64);
        reserved += many * one.reserved;
        stops += many * one.stops;
    }
    Shares { reserved, stops }
}

// What one bundle of a tag adds.
fn share(tag: u64) -> Shares
    requires { tag < 32 }
    ensures { (result ≡ tag_shares tag) × (result.reserved ≤ 1) × (result.stops ≤ 3) }
{
    let template = bundle::template_of(Halves { low: tag, high: 0 });
    let units = template.units;
    let stops = template.stops;
    Shares {
        reserved: u64::from(bundle::unitless(units)),
        stops: u64::from(stops[0]) + u64::from(stops[1]) + u64::from(stops[2]),
    }
}
