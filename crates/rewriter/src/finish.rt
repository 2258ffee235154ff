//! The end of a call of several events.
ghost use Rattle.std.specs.Prelude.{◌≡◌, [], true};
ghost use Rattle.rewriter.specs.RewriterCalls.{Notified, Led};
ghost use Rattle.rewriter.specs.Wholes.{IsFinished};

use crate::bench::Bench;
use ir_event::analysis::Analysis;

/// Removes the newest mark. If `stays`, the module is kept; otherwise the module of the mark is restored.
pub fn close_mark<L: Analysis>(bench: &mut Bench<L>, stays: bool)
    ensures finished { IsFinished stays bench.old.transaction bench.new.transaction }
    ensures led { Led L.meaning bench.old bench.new }
    ensures untold { stays ≡ true → Notified L.meaning [] bench.old bench.new }
{
    if stays {
        let _ = bench.commit();
        return;
    }
    let _ = bench.rollback();
}
