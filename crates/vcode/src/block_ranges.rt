ghost use Rattle.faults.specs.declared.table_id.TableId.TheVariants.{Blocks};
ghost use Rattle.vcode.specs.Kinds.{AreRanges};

use faults::fault::Fault;
use faults::table_id::TableId;
use ranges::ranges::Ranges;
use std::alloc::{AllocError, Global};

/// What belongs to each block: its instructions, successors and parameters, and room for its predecessors; a list each, as in
/// the original.
#[derive(Drop)]
pub struct BlockRanges {
    insts: Ranges,
    succs: Ranges,
    params: Ranges,
    preds: Ranges,
    ghost of_insts: { AreRanges insts Blocks insts.spans.most },
    ghost of_succs: { AreRanges succs Blocks insts.spans.most },
    ghost of_params: { AreRanges params Blocks insts.spans.most },
    ghost of_preds: { AreRanges preds Blocks insts.spans.most },
}

impl BlockRanges {
    ghost use Rattle.std.specs.Prelude.{◌≡◌, List, [], ◌∷◌, length, IfOk, OnErr};
    ghost use Rattle.faults.specs.TableIds.{capacity_of};
    ghost use Rattle.vcode.specs.Book.{Block, Limits, block_room};
    ghost use Rattle.vcode.specs.Held.{Contents, RangesHeld};
    ghost use Rattle.faults.specs.Outcomes.{Outcome};

    // No blocks, with room for `length`, or for the most that there can be where that is fewer.
    pub(crate) fn with_length(heap: Global, length: usize) -> Result<BlockRanges, AllocError>
        ensures { IfOk result (λ b. (L : Limits) → L.blocks ≡ capacity_of Blocks length → RangesHeld b L []) }
    {
        let ranges = || Ranges::new(heap, TableId::Blocks, length);
        Ok(BlockRanges {
            insts: ranges()?,
            succs: ranges()?,
            params: ranges()?,
            preds: ranges()?,
        })
    }

    pub(crate) fn clear(&mut self)
        ensures { (L : Limits) → L.blocks ≡ self.old.insts.spans.most → RangesHeld self.new L [] }
    {
        self.insts.clear();
        self.succs.clear();
        self.params.clear();
        self.preds.clear();
    }

    // Closes a block, where there were so many instructions, successors and parameters in all.
    pub(crate) fn push_ends(&mut self, insts: u32, succs: u32, params: u32) -> Result<(), Fault>
        ensures answer { (L : Limits) (bs : List Block) (b : Block) → RangesHeld self.old L bs → Contents (b ∷ bs) insts succs params → Outcome (block_room L bs) result (λ _. RangesHeld self.new L (b ∷ bs)) }
        ensures unchanged { OnErr result (self.new ≡ self.old) }
    {
        self.insts.check_end(insts)?;
        self.succs.check_end(succs)?;
        self.params.check_end(params)?;
        let _ = self.insts.push_end(insts);
        let _ = self.succs.push_end(succs);
        let _ = self.params.push_end(params);
        Ok(())
    }
}
