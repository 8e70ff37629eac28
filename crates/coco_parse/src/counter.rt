//! What the limits count over the words read so far.

ghost use Rattle.std.specs.Prelude.{◌≡◌, ◌+◌, ◌^◌, ◌<◌, true, false, List, [], ◌∷◌, ◌++◌, length, None};
ghost use Rattle.coco_parse.specs.Counting.{CountsProcedure, CountsExpression, Counts, Counted, CountsOver, is_refuse, is_wide};
ghost use Rattle.coco_parse.specs.Limits.{is_name, opens, is_operator, begins_expression};
ghost use Rattle.coco_parse.specs.declared.word.Word.{Word};

use crate::error::ParseKind;
use crate::limits::{MOST_CODE, MOST_OPEN, MOST_OPERATORS};
use crate::word::Word;
use coco_types::limits::MOST_ARGUMENTS;

// What is counted behind the last `proc`; before the first one nothing is.
#[derive(Clone, Copy)]
struct ProcedureCounter {
    begun: bool,
    // No parenthesis has closed since `proc`.
    in_header: bool,
    opened: usize,
    closed: usize,
    // The procedure's and its parameters'; none behind the header.
    names: usize,
}

// What is counted behind the last word that begins an expression; before the first one nothing is.
#[derive(Clone, Copy)]
struct ExpressionCounter {
    begun: bool,
    operators: usize,
}

// What the limits count, over the words read so far.
#[derive(Clone, Copy)]
pub(crate) struct Counter {
    procedure: ProcedureCounter,
    expression: ExpressionCounter,
    pub(crate) refuses: bool,
}

impl ProcedureCounter {
    fn new() -> ProcedureCounter
        ensures { CountsProcedure result [] }
    {
        ProcedureCounter {
            begun: false,
            in_header: false,
            opened: 0,
            closed: 0,
            names: 0,
        }
    }

    // Over `proc`.
    fn begin(&mut self)
        ensures { (ws : List Word) → CountsProcedure self.new (ws ++ Word.Proc ∷ []) }
    {
        *self = ProcedureCounter {
            begun: true,
            in_header: true,
            opened: 0,
            closed: 0,
            names: 0,
        };
    }

    // Over a word that opens a parenthesis or a block, unless it passes a limit.
    fn open(&mut self) -> Option<ParseKind>
        ensures { CountsOver opens (CountsProcedure self.old) (CountsProcedure self.new) result }
    {
        let depth = self.opened.saturating_sub(self.closed);
        if depth >= MOST_OPEN {
            return Some(ParseKind::TooDeep);
        }
        if self.begun {
            self.opened = self.opened.saturating_add(1);
        }
        None
    }

    // Over a brace that closes a block.
    fn close_brace(&mut self)
        ensures { (ws : List Word) → length ws + 1 < 2 ^ 64 → CountsProcedure self.old ws
            → CountsProcedure self.new (ws ++ Word.CloseBrace ∷ []) }
    {
        if self.begun {
            self.closed = self.closed.saturating_add(1);
        }
    }

    // Over a parenthesis that closes, which ends the header.
    fn close_paren(&mut self)
        ensures { (ws : List Word) → length ws + 1 < 2 ^ 64 → CountsProcedure self.old ws
            → CountsProcedure self.new (ws ++ Word.CloseParen ∷ []) }
    {
        self.in_header = false;
        self.names = 0;
        if self.begun {
            self.closed = self.closed.saturating_add(1);
        }
    }

    // Over a name, unless it passes a limit.
    fn name(&mut self) -> Option<ParseKind>
        ensures { CountsOver is_name (CountsProcedure self.old) (CountsProcedure self.new) result }
    {
        if self.in_header {
            if self.names > MOST_ARGUMENTS {
                return Some(ParseKind::TooMany);
            }
            self.names += 1;
        }
        None
    }
}

impl ExpressionCounter {
    fn new() -> ExpressionCounter
        ensures { CountsExpression result [] }
    {
        ExpressionCounter {
            begun: false,
            operators: 0,
        }
    }

    // Over a word that begins an expression.
    fn begin(&mut self)
        ensures { (ws : List Word) (w : Word) → begins_expression w ≡ true → CountsExpression self.new (ws ++ w ∷ []) }
    {
        *self = ExpressionCounter {
            begun: true,
            operators: 0,
        };
    }

    // Over an operator, unless it passes a limit.
    fn operator(&mut self) -> Option<ParseKind>
        ensures { CountsOver is_operator (CountsExpression self.old) (CountsExpression self.new) result }
    {
        if self.begun {
            if self.operators >= MOST_OPERATORS {
                return Some(ParseKind::TooMany);
            }
            self.operators += 1;
        }
        None
    }
}

impl Counter {
    pub(crate) fn new() -> Counter
        ensures { Counts result [] }
    {
        Counter {
            procedure: ProcedureCounter::new(),
            expression: ExpressionCounter::new(),
            refuses: false,
        }
    }

    // Counts one more word, or gives the limit that it passes: behind that no word is read, so
    // what the counter has then doesn't matter.
    pub(crate) fn count(&mut self, word: &Word) -> Option<ParseKind>
        ensures refuses { self.new.refuses ≡ is_refuse word.now }
        ensures narrow { result ≡ None → self.old.refuses ≡ true → is_wide word.now ≡ false }
        ensures counts { (ws : List Word) → length ws + 1 < 2 ^ 64 → Counts self.old ws
            → Counted result (Counts self.new) (ws ++ word.now ∷ []) }
    {
        let behind_refuse = self.refuses;
        self.refuses = false;
        match word {
            Word::Name(_) => return self.procedure.name(),
            Word::Number(number) => {
                if behind_refuse && *number > MOST_CODE {
                    return Some(ParseKind::Range);
                }
            }
            Word::Not | Word::Two(_) => return self.expression.operator(),
            Word::OpenParen | Word::OpenBrace => return self.procedure.open(),
            Word::CloseParen => self.procedure.close_paren(),
            Word::CloseBrace => self.procedure.close_brace(),
            Word::Assign | Word::OpenBracket | Word::If | Word::Reply => self.expression.begin(),
            Word::Refuse => self.refuses = true,
            Word::Proc => self.procedure.begin(),
            _ => {}
        }
        None
    }
}
