// The lines of a script, as a source gives them.
ghost use Rattle.tdb_script.specs.declared.line.TheConstants.{MAX_LINE_LENGTH};
ghost use Rattle.tdb_serve.specs.declared.script_lines.TheConstants.{MAX_SCRIPT_LENGTH, MAX_TAKE};
ghost use Rattle.std.specs.Prelude.{◌≡◌, ◌≢◌, ◌≤◌, ◌<◌, ◌+◌, ◌-◌, ◌++◌, ◌⊎◌, ℕ, List, [], ◌∷◌};
ghost use Rattle.std.specs.Prelude.{length, take, drop, vec_len, vec_capacity, IsTrue, IfOk, IfErr, OnOk, OnErr, IfSome, IfNone, false};

use crate::script_end::NoLine;
use crate::taking::take_into;
use std::alloc::{AllocError, Global};
use tdb_script::MAX_LINE_LENGTH;
use tdb_stream::{Failed, Source};

/// The most bytes that are taken of a script.
pub const MAX_SCRIPT_LENGTH: u64 = 4_294_967_296;

/// The most bytes that one take asks for.
pub const MAX_TAKE: usize = 65_536;

/// A line that was taken.
#[derive(Clone, Copy, Debug, PartialEq, Eq)]
pub(crate) enum Next {
    /// One that `line` gives.
    Line,
    /// One that is too long; it was passed over.
    TooLong,
}

/// The lines of a script.
#[derive(Drop)]
pub(crate) struct ScriptLines {
    chunk: Vec<u8>,
    start: usize,
    end: usize,
    line: Vec<u8>,
    taken: u64,
    pub ghost size: { vec_len chunk ≡ MAX_TAKE },
    pub ghost ordered: { start ≤ end },
    pub ghost within: { end ≤ MAX_TAKE },
    pub ghost room: { MAX_LINE_LENGTH ≤ vec_capacity line },
    pub ghost fits: { vec_len line ≤ MAX_LINE_LENGTH },
    pub ghost limit: { taken ≤ MAX_SCRIPT_LENGTH },
}

impl ScriptLines {
    ghost use Rattle.tdb_serve.specs.Unread.{unread};
    ghost use Rattle.tdb_serve.specs.Stopping.{LeavesUnanswered, StopsFor};
    ghost use Rattle.tdb_serve.specs.Taking.{HasTaken};
    ghost use Rattle.tdb_serve.specs.Gave.{Gave, HasNoLineFeed};
    ghost use Rattle.tdb_base.specs.Rose.{Rose};

    /// No line yet.
    pub fn new(alloc: Global) -> Result<ScriptLines, AllocError>
        ensures { IfOk result (λ r. (unread r ≡ []) × (r.taken ≡ 0)) }
    {
        let chunk = vec![in alloc; 0; MAX_TAKE]?;
        let line = Vec::with_capacity(alloc, MAX_LINE_LENGTH)?;
        Ok(ScriptLines {
            chunk,
            start: 0,
            end: 0,
            line,
            taken: 0,
        })
    }

    /// The line that was handed on last.
    pub fn line(&self) -> &[u8]
        ensures { result.now ≡ self.now.line.items }
    {
        &self.line
    }

    /// Hands on the next line, of which `line` then gives the bytes, or says why there is none.
    pub fn next<S: Source>(&mut self, source: &mut S) -> Result<Next, NoLine>
        ensures taken { IfOk result (λ next. HasTaken (S.content source.old) (S.content source.new) self.old self.new next) }
        ensures stopped { IfErr result (λ why. (left : LeavesUnanswered (S.content source.old) (S.content source.new) self.old self.new)
            × StopsFor left why) }
        ensures tells { (S.content source.new).tells ≡ (S.content source.old).tells }
        ensures no_fewer { (S.content source.old).faults ≤ (S.content source.new).faults }
    {
        self.line.clear();
        let mut fits = true;
        'reading: loop {
            if let Some(count) = self.bytes_to_line_feed() {
                fits = self.hand_on(count, fits);
                self.pass(1);
                return Ok(if fits { Next::Line } else { Next::TooLong });
            }
            let count = self.end - self.start;
            fits = self.hand_on(count, fits);
            match self.fill(source) {
                Ok(true) => {}
                Ok(false) => return Err(NoLine::NoMore),
                Err(Failed) => return Err(NoLine::SourceFailed),
            }
        }
    }

    // How many unread bytes stand before the first line feed.
    fn bytes_to_line_feed(&self) -> Option<usize>
        ensures found { IfSome result (λ n. (n < length (unread self.now))
            × (unread self.now ≡ take n (unread self.now) ++ 10 ∷ drop (n + 1) (unread self.now))
            × HasNoLineFeed (take n (unread self.now))) }
        ensures none { IfNone result (HasNoLineFeed (unread self.now)) }
    {
        self.chunk[self.start..self.end]
            .iter()
            .position(|byte| *byte == b'\n')
    }

    // Adds so many unread bytes to the line, if what came before fitted and they fit too. They are read either way.
    fn hand_on(&mut self, count: usize, fitted: bool) -> bool
        requires { count ≤ length (unread self.old) }
        ensures moved { unread self.new ≡ drop count (unread self.old) }
        ensures fits { IsTrue result → IsTrue fitted × (self.new.line.items ≡ self.old.line.items ++ take count (unread self.old)) }
        ensures too_long { result ≡ false → (fitted ≡ false) ⊎ (IsTrue fitted × (MAX_LINE_LENGTH < length self.old.line.items + count)) }
        ensures taken { self.new.taken ≡ self.old.taken }
    {
        let fits = fitted && self.line.len() + count <= MAX_LINE_LENGTH;
        if fits {
            let end = self.start + count;
            let Ok(()) = self.line.extend_from_slice(&self.chunk[self.start..end]) else {
                unreachable!()
            };
        }
        self.pass(count);
        fits
    }

    // Passes over so many unread bytes.
    fn pass(&mut self, count: usize)
        requires { count ≤ length (unread self.old) }
        ensures moved { unread self.new ≡ drop count (unread self.old) }
        ensures taken { self.new.taken ≡ self.old.taken }
        ensures line { self.new.line.items ≡ self.old.line.items }
    {
        self.start += count;
    }

    // Takes the next bytes from the source. It says whether there were any.
    fn fill<S: Source>(&mut self, source: &mut S) -> Result<bool, Failed>
        ensures gave { IfOk result (λ more. Gave (S.content source.old) (S.content source.new) (unread self.new)) }
        ensures counted { IfOk result (λ more. self.new.taken ≡ self.old.taken + length (unread self.new)) }
        ensures more { IfOk result (λ more. IsTrue more → 0 < length (unread self.new)) }
        ensures end { IfOk result (λ more. more ≡ false → (unread self.new ≡ [])
            × ((self.new.taken ≡ MAX_SCRIPT_LENGTH) ⊎ (IsTrue (S.content source.old).tells → (S.content source.new).rest ≡ []))) }
        ensures failed { OnErr result ((unread self.new ≡ []) × (self.new.taken ≡ self.old.taken)
            × Gave (S.content source.old) (S.content source.new) [] × Rose (S.content source.old).faults (S.content source.new).faults) }
        ensures line { self.new.line.items ≡ self.old.line.items }
        ensures quiet { OnOk result ((S.content source.new).faults ≡ (S.content source.old).faults) }
        ensures tells { (S.content source.new).tells ≡ (S.content source.old).tells }
        ensures no_fewer { (S.content source.old).faults ≤ (S.content source.new).faults }
    {
        self.start = 0;
        self.end = 0;
        let left = MAX_SCRIPT_LENGTH - self.taken;
        if left == 0 {
            return Ok(false);
        }
        let most = left.min(MAX_TAKE as u64) as usize;
        let count = take_into(source, &mut self.chunk, most)?;
        self.end = count;
        self.taken += count as u64;
        Ok(count > 0)
    }
}
