//! What holds of letters that wait, and of ways of the world that follow one another.

ghost use Rattle.std.specs.Prelude.{◌≡◌, ◌≤◌, ◌≢◌, ℕ, List, [], ◌∷◌, Option, Contains, MatchOption};
ghost use Rattle.coco_net.specs.declared.letter.Letter.{Letter as Mail};
ghost use Rattle.coco_net.specs.declared.letter.Posted.{Posted as Sent};
ghost use Rattle.coco_net.specs.Giving.{GivesMore};
ghost use Rattle.coco_letters.specs.Turns.{AreSent};
ghost use Rattle.coco_letters.specs.Worlds.{GoesOn, Scene};

/// What waits behind a round was sent. So was a letter that is taken, and what waits behind it.
pub fn waiting_letters_were_sent()
    ensures round { (sent fresh : List Sent) (faults faults_after : ℕ) (waiting : ℕ → List Mail) (given given_after : List Sent)
        → GivesMore sent fresh faults faults_after waiting given given_after → AreSent sent waiting }
    ensures taken { (sent : List Sent) (waiting rest : ℕ → List Mail) (place : ℕ) (taken : Option Mail) → AreSent sent waiting
        → MatchOption taken ((waiting place ≡ []) × (rest place ≡ [])) (λ letter. waiting place ≡ letter ∷ rest place)
        → ((p : ℕ) → p ≢ place → rest p ≡ waiting p) → AreSent sent rest }
    ensures letter { (sent : List Sent) (waiting rest : ℕ → List Mail) (place : ℕ) (letter : Mail) → place ≤ 8 → AreSent sent waiting
        → waiting place ≡ letter ∷ rest place → Contains sent (record { to = place; letter = letter }) }
{}

/// One way behind another is a way.
pub fn ways_follow_one_another()
    ensures { (a b c : Scene) → GoesOn a b → GoesOn b c → GoesOn a c }
{}
