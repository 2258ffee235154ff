//! Creates listeners by their kind.
ghost use Rattle.std.specs.Prelude.{◌≡◌, ℕ, Bool, None, Option, option_map};
ghost use Rattle.rewriter_machine.specs.Panels.{Shown, shown};

use ir_event::analysis::Analysis;
use ir_event::row::Kind;
use std::alloc::Global;

/// A type of listeners that can be created by kind.
pub trait AnalysisSource: Analysis {
    /// The observable state of a new listener of a kind, if the kind has one. The flag is the argument `opaque` of
    /// `new_of_kind`.
    ghost supply: { Bool → ℕ → Option Shown };

    /// Creates a listener of a kind that hasn't begun, or returns `None` if the kind has none. `opaque` says whether
    /// unregistered types and attributes are accepted as opaque ones, so that the module may have operations of any
    /// dialect.
    fn new_of_kind(alloc: Global, opaque: bool, kind: Kind) -> Option<Self>
        ensures { option_map (λ b. shown (Self.meaning b)) result ≡ supply opaque kind };
}

/// Boxed analyses can't be created by kind.
impl AnalysisSource for Box<dyn Analysis> {
    ghost supply = { λ opaque kind. None };

    fn new_of_kind(_alloc: Global, _opaque: bool, _kind: Kind) -> Option<Box<dyn Analysis>> {
        None
    }
}
