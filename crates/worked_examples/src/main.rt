//! Tries the worked examples on `mapchain_cli::command`. They are pages of Markdown, the `.md` files of the folder that it runs in, which
//! is `data` under the gate; their blocks name files, commands and what must come of them. `try_page` runs a page's commands on a `Program`
//! over files and streams in memory, lends it the failing devices of `byte_ends`, and says which runs went otherwise; the contracts of
//! `LentFiles` say what it reads of a file, and what is in the place of one that it has written. The program is `mapchain_cli`'s. A line is
//! printed for each run that went otherwise, and then the counts. `FORMAT.md` says what a page may hold.
#![tactic(auto)]

ghost use Rattle.std.specs.Prelude.{◌≡◌, IfSome};
ghost use Rattle.std.specs.Option.{option_map};
ghost use Rattle.std.specs.String.{string_bytes};
ghost use Rattle.worked_examples.specs.Held.{lent};
ghost use Rattle.mapchain_cli.specs.Files.{IsFresh};

mod content;
mod devices;
mod example;
mod lent_files;
mod memory_files;
mod notes;
mod page;
mod page_fault;
mod program;
mod running;
mod tally;

use crate::lent_files::LentFiles;
use crate::page::try_page;
use crate::program::{Ended, Program, Streams};
use byte_ends::devices::{CutReader, CutWriter};
use byte_ends::{FromRead, Sink, Source, ToWrite};
use mapchain_cli::{Counts, FileKind, Notes, OwnText, command};
use std::alloc::{AllocGlobal, Global};
use std::fs::Files;
use std::{fs, io};

// The files of a page as the command line reads and writes them.
#[derive(Drop)]
struct PageFiles<'a> {
    alloc: Global,
    files: LentFiles<'a>,
    counts: Counts,
    /// The path of the output that was begun last, unless it was kept or taken away.
    pending: Option<String>,
    notes: Notes<FromRead<CutReader<'a>>, ToWrite<CutWriter>>,
}

impl<'a> PageFiles<'a> {
    // Begins an output, and gives the path that it is for, or nothing where that can't be.
    fn begin_for(&mut self, path: &str) -> Option<(String, Sink<ToWrite<CutWriter>>)>
        ensures path { IfSome result (λ r. string_bytes r.0 ≡ path.now) }
        ensures fresh { IfSome result (λ r. IsFresh r.1) }
        ensures same { lent self.new.files ≡ lent self.old.files }
        ensures counts { self.new.counts ≡ self.old.counts }
        ensures pending { self.new.pending ≡ self.old.pending }
        ensures notes { self.new.notes ≡ self.old.notes }
    {
        let name = String::from_str(self.alloc, path).ok()?;
        let output = self.files.begin()?;
        Some((name, output))
    }
}

impl<'a> mapchain_cli::Files for PageFiles<'a> {
    type R = FromRead<CutReader<'a>>;

    type W = ToWrite<CutWriter>;

    ghost state = { λ s. record { contents = lent s.files; counts = s.counts; pending = option_map string_bytes s.pending; noted = s.notes } };

    fn seed(&self) -> u64 {
        self.files.seed()
    }

    fn open(&mut self, path: &str) -> Option<Source<FromRead<CutReader<'a>>>> {
        let opened = self.files.open(path);
        self.counts.count_open(opened.is_some());
        opened
    }

    fn done_with(&mut self, source: &Source<FromRead<CutReader<'a>>>) {
        self.notes.note_source(source);
    }

    fn done_with_all(&mut self, sources: &Vec<(OwnText, Source<FromRead<CutReader<'a>>>)>) {
        self.notes.note_sources(sources);
    }

    fn look(&self, path: &str) -> FileKind {
        if self.files.is_folder(path) {
            return FileKind::Folder;
        }
        if self.files.has_file(path) {
            return FileKind::Regular;
        }
        FileKind::Missing
    }

    fn begin(&mut self, path: &str) -> Option<Sink<ToWrite<CutWriter>>> {
        let begun = self.begin_for(path);
        self.counts.count_begin(begun.is_some());
        let (name, output) = begun?;
        self.pending = Some(name);
        self.notes.note_begun(&output);
        Some(output)
    }

    fn keep(&mut self, output: ToWrite<CutWriter>) -> bool {
        self.notes.note_ended(&output);
        let Some(path) = self.pending.take() else {
            self.files.discard(output);
            self.counts.count_keep(false);
            return false;
        };
        let is_kept = self.files.keep(path.as_str(), output);
        self.counts.count_keep(is_kept);
        is_kept
    }

    fn discard(&mut self, output: ToWrite<CutWriter>) {
        self.notes.note_ended(&output);
        self.pending = None;
        self.files.discard(output);
        self.counts.count_discard();
    }
}

// The program whose commands the pages show.
struct Mapchain;

impl Program for Mapchain {
    fn run<'a>(
        &self,
        alloc: Global,
        words: Vec<String>,
        files: LentFiles<'a>,
        streams: &mut Streams,
    ) -> Ended<'a> {
        let mut files = PageFiles {
            alloc,
            files,
            counts: Counts::none(),
            pending: None,
            notes: Notes::none(),
        };
        let status = command(
            alloc,
            words,
            &mut files,
            &mut streams.output,
            &mut streams.error,
        );
        Ended {
            status,
            files: files.files,
        }
    }
}

/// The names of the pages of this folder, in order.
fn page_names<R: Files + AllocGlobal + Clone + Drop>(rt: &R) -> io::Result<Vec<String>> {
    let mut names = Vec::new(rt.alloc());
    for entry in fs::read_dir(rt, ".")? {
        let entry = entry?;
        let name = entry.file_name();
        if name.ends_with(".md") {
            names.push(String::from_str(rt.alloc(), name)?)?;
        }
    }
    names.sort()?;
    Ok(names)
}

fn main(rt: HostRuntime) -> io::Result<()> {
    let mut pages = 0u64;
    let mut runs = 0u64;
    let mut differing = 0u64;
    for name in page_names(&rt)? {
        let text = fs::read_to_string(&rt, name.as_str())?;
        let tally = try_page(rt.alloc(), &Mapchain, &text)?;
        for difference in tally.differences() {
            println!(rt; "{name}: {difference}")?;
            differing = differing.saturating_add(1);
        }
        pages = pages.saturating_add(1);
        runs = runs.saturating_add(tally.runs());
    }
    println!(rt; "{pages} pages, {runs} runs, {differing} went otherwise")
}
