//! Pushing items and skipping those that are refused.
ghost use Rattle.std.specs.Prelude.{◌≡◌, length, OnErr, IfOk, IsOkUnless, alloc_error};
ghost use Rattle.std.specs.List.{All, items_where_true};
ghost use Rattle.nest_build.specs.Words.{IsComplete, Memory, ConsumedEach};

use crate::push::TryPush;
use nest_memory::error::Error;
use std::alloc::Global;

/// Pushes each item and returns for each whether it was accepted. The rows of the accepted items are appended in order.
///
/// # Errors
/// `Memory` if the result cannot be allocated; then no item is pushed.
pub fn push_all<A: Drop, B: TryPush<A>>(
    alloc: Global,
    builder: &mut B,
    items: Vec<A>,
) -> Result<Vec<bool>, Error>
    requires complete { IsComplete (B.model builder.old) }
    requires can { All B.can_push items.items }
    ensures count { IfOk result (λ marks. length marks.items ≡ length items.items) }
    ensures ok { IfOk result (λ marks. ConsumedEach B.reads (items_where_true marks.items items.items) (B.model builder.old) (B.model builder.new)) }
    ensures err { OnErr result (B.model builder.new ≡ B.model builder.old) }
    ensures memory { IsOkUnless result (Memory alloc_error) }
{
    let mut marks = Vec::with_capacity(alloc, items.len())?;
    for item in items {
        let accepted = builder.try_push(item).is_ok();
        let _ = marks.push(accepted);
    }
    Ok(marks)
}
