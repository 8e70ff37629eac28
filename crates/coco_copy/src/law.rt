//! The law of puts: the greatest time wins.

ghost use Rattle.std.specs.Prelude.{◌≡◌, List};
ghost use Rattle.std.specs.FinMap.{empty, get};
ghost use Rattle.coco_types.specs.RowKey.{RowKey};
ghost use Rattle.coco_copy.specs.declared.ops.CopyAsk.{CopyAsk as Asked};
ghost use Rattle.coco_copy.specs.CopyState.{CopyState};
ghost use Rattle.coco_copy.specs.Puts.{after_asks, answer_by, answer_in, key_of};
ghost use Rattle.coco_copy.specs.Greatest.{greatest_put, puts_on};

/// After an epoch is begun and any puts are made, what pends for a key is the first of its puts with the greatest
/// time; a further put is answered by it; and the epoch and the stable map are as they were.
pub fn greatest_time_wins()
    ensures pending { (s : CopyState) (asks : List Asked) (k : RowKey) → s.pending ≡ empty →
        get (after_asks s asks).pending k ≡ greatest_put (puts_on s.epoch k asks) }
    ensures answers { (s : CopyState) (asks : List Asked) (ask : Asked) → s.pending ≡ empty →
        answer_in (after_asks s asks) ask ≡ answer_by s.epoch (greatest_put (puts_on s.epoch (key_of ask) asks)) ask }
    ensures epoch { (s : CopyState) (asks : List Asked) → (after_asks s asks).epoch ≡ s.epoch }
    ensures stable { (s : CopyState) (asks : List Asked) → (after_asks s asks).stable ≡ s.stable }
{}
