// `report`: the template report over the code of files.
use crate::job::Job;
use crate::room;
use crate::source::Source;
use console::Status;
use form::NO_FORM;
use guest::Guest;
use lines::part;
use tally::NUMBERS;
use window::Extent;

// An image has so many bytes at most.
const SPAN: u64 = 65536;

// The report so far, and how the last of the files ended that failed.
#[derive(Drop)]
struct Counted {
    report: [u64; NUMBERS],
    ended: Result<(), Status>,
}

pub fn report(job: &Job) -> Result<(), Status> {
    let mut counted = Counted {
        report: [0; NUMBERS],
        ended: Ok(()),
    };
    let first = job.asked.file.unwrap_or(usize::MAX);
    for place in first..console::arg_count(job.rt) {
        counted.add_argument(job, place);
    }
    let mut out = [0u8; tally::CAPACITY];
    let end = tally::put_report(&mut out, 0, counted.report);
    let written = job.printed(&out, end);
    counted.ended.and(written)
}

impl Counted {
    // Adds the file that an argument names, where it isn't an option.
    fn add_argument(&mut self, job: &Job, place: usize) {
        let mut word = [0u8; 4096];
        let length = console::arg(job.rt, place, &mut word);
        let name = &word[..length];
        if !name.starts_with(b"--") {
            self.add_file(&Job {
                rt: job.rt,
                asked: job.asked,
                command: job.command,
                name,
            });
        }
    }

    fn add_file(&mut self, job: &Job) {
        match Source::open(job) {
            Ok(source) => self.add_extents(job, &source.guest),
            Err(status) => self.ended = Err(status),
        }
    }

    fn add_extents(&mut self, job: &Job, guest: &Guest) {
        for extent in guest.extents.as_slice() {
            self.add_bytes(job, guest, *extent);
        }
    }

    // The bytes of an extent, as many at a time as an image has.
    fn add_bytes(&mut self, job: &Job, guest: &Guest, extent: Extent) {
        let mut done = 0;
        while done < extent.size {
            let n = (extent.size - done).min(SPAN);
            if let Err(status) = self.add_image(job, guest, extent.offset.wrapping_add(done), n) {
                self.ended = Err(status);
            }
            done += n;
        }
    }

    fn add_image(
        &mut self,
        job: &Job,
        guest: &Guest,
        offset: u64,
        size: u64,
    ) -> Result<(), Status> {
        let mut code = room::code();
        let n = part::within(&code, size as usize);
        let image = &mut code[..n];
        guest::read_at(&guest.file, image, offset).map_err(|error| job.failed(&error))?;
        tally::add(&mut self.report, image).map_err(|refusal| job.refuse(offset, refusal, NO_FORM))
    }
}
