//! The lines of a rewriting command.
ghost use Rattle.std.specs.Prelude.{◌≡◌, ◌∷◌, [], OnOk};
ghost use Rattle.mlir_work_transforms.specs.FiredLaws.{FiredTaken, IsFresh};
ghost use Rattle.mlir_work_transforms.specs.LineLaws.{Taken, ended_text};

use crate::fired_lines::write_last;
use crate::trace_form::TraceForm;
use crate::trace_lines::write_applied_rewrite;
use greedy::applied_rewrite::{AppliedPattern, AppliedRewrite};
use greedy::outcome::Outcome;
use greedy::tracer::Tracer;
use ir_event::types::refusal::Refusal;
use std::alloc::{AllocError, Global};

/// The tracer of a rewriting command. By its form it collects nothing, a line for each rewrite, or the counts of the
/// rules and patterns of the last hundred rewrites.
///
/// If it counts, each rewrite adds 16 bytes to `applied`. The counts are written with the last rewrite that the limit
/// allows. So the end of a run needs no memory, and a run without memory for the lines is refused as a whole.
#[derive(Drop)]
pub struct RewriteLines {
    pub form: TraceForm,
    /// The lines of others, and then the lines of this tracer.
    pub text: Vec<u8>,
    /// The length of the lines of others.
    pub shown: usize,
    /// The name of each rule and pattern of the list, at the same index. It may be empty if the list has only rules.
    pub names: Vec<Vec<u8>>,
    /// What each rewrite applied, in order, if the tracer counts.
    pub applied: Vec<AppliedPattern>,
    /// The limit of the run.
    pub limit: u32,
}

impl RewriteLines {
    /// Returns a tracer for a run with this limit, with the lines above its own and the names of the rules and
    /// patterns of the list.
    pub fn new(
        alloc: Global,
        form: TraceForm,
        limit: u32,
        text: Vec<u8>,
        names: Vec<Vec<u8>>,
    ) -> RewriteLines
        ensures form { result.form ≡ form }
        ensures text { result.text ≡ text }
        ensures names { result.names ≡ names }
        ensures limit { result.limit ≡ limit }
        ensures fresh { IsFresh result }
    {
        RewriteLines {
            form,
            shown: text.len(),
            text,
            names,
            applied: Vec::new(alloc),
            limit,
        }
    }

    /// Returns a tracer for a run with this limit, without lines above its own, for rules only.
    pub fn of_rules(alloc: Global, form: TraceForm, limit: u32) -> RewriteLines
        ensures form { result.form ≡ form }
        ensures text { result.text.items ≡ [] }
        ensures names { result.names.items ≡ [] }
        ensures limit { result.limit ≡ limit }
        ensures fresh { IsFresh result }
    {
        RewriteLines {
            form,
            text: Vec::new(alloc),
            shown: 0,
            names: Vec::new(alloc),
            applied: Vec::new(alloc),
            limit,
        }
    }

    /// Counts a rewrite, and writes the counts if it is the last one that the limit allows.
    fn count(&mut self, applied: &AppliedRewrite) -> Result<(), AllocError>
        ensures counts { OnOk result (FiredTaken (applied.now ∷ []) self.old self.new) }
        ensures form { self.new.form ≡ self.old.form }
    {
        self.applied.push(applied.by)?;
        if self.applied.len() != self.limit as usize {
            return Ok(());
        }
        self.text.truncate(self.shown);
        write_last(&mut self.text, &self.names, &self.applied)?;
        Ok(())
    }

    /// Records a rewrite, by the form of the lines.
    fn record(&mut self, applied: &AppliedRewrite) -> Result<(), AllocError>
        ensures { OnOk result (Taken (applied.now ∷ []) self.old self.new) }
    {
        match self.form {
            TraceForm::Off => Ok(()),
            TraceForm::EachRewrite => write_applied_rewrite(&mut self.text, &self.names, applied),
            TraceForm::Counts => self.count(applied),
        }
    }

    /// Removes the counts at the end of a run, unless the run stopped by its limit.
    pub(crate) fn end(&mut self, called: &Result<Outcome, Refusal>)
        ensures { self.new.text.items ≡ ended_text self.old.form called.now self.old.shown self.old.text.items }
    {
        match self.form {
            TraceForm::Off => {}
            TraceForm::EachRewrite => {}
            TraceForm::Counts => match called {
                Ok(Outcome::Limit(_)) => {}
                Ok(Outcome::Converged(_)) => self.text.truncate(self.shown),
                Err(_) => {}
            },
        }
    }
}

impl Tracer for RewriteLines {
    ghost use Rattle.mlir_work_transforms.specs.LineLaws.{Taken, joined_taken, untouched_taken};

    ghost traced = { Taken };

    ghost untouched = { untouched_taken };

    ghost joined = { joined_taken };

    fn record_rewrite(&mut self, applied: AppliedRewrite) -> Result<(), Refusal> {
        match self.record(&applied) {
            Ok(()) => Ok(()),
            Err(_) => Err(Refusal::Memory),
        }
    }
}
