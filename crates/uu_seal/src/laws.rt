//! Laws of the definitions that the contracts cite.
ghost use Rattle.std.specs.Prelude.{◌≡◌, ◌≢◌, ◌++◌, ◌∷◌, ℕ, List, All, Contains};
ghost use Rattle.uu_seal.specs.Laws.{BeginsOneOf, NoneIsForged, TagsTellApart};
ghost use Rattle.uu_seal.specs.Opening.{BeginsOtherwise, IsOpened, IsOpenedWith, joined};
ghost use Rattle.uu_seal.specs.Texts.{first_line, name_of, pieces_of, pieces_text, sealed};

/// At most one text is opened of a text.
pub fn a_text_opens_in_one_way()
    ensures { (keys : List (List ℕ)) (text opened other : List ℕ) → IsOpened keys text opened → IsOpened keys text other → opened ≡ other }
{}

/// A text that was sealed is opened whole, with keys among which is the one that it was sealed
/// with, if no earlier one has the same name.
pub fn sealed_texts_open()
    ensures { (earlier later : List (List ℕ)) (key text : List ℕ) → All (λ other. first_line other ≢ first_line key) earlier → IsOpened (earlier ++ key ∷ later) (sealed key text) text }
{}

/// If a sealed text is cut off at any place after its first line, a beginning of the text is opened
/// with its key. It has all pieces that are whole.
pub fn cut_texts_open_as_far()
    ensures front { (key text cut missing opened : List ℕ) → cut ++ missing ≡ sealed key text → IsOpenedWith key cut opened → (behind : List ℕ) × (opened ++ behind ≡ text) }
    ensures whole { (key text opened some : List ℕ) (first others : List (List ℕ)) → pieces_of text ≡ first ++ others → IsOpenedWith key (first_line key ++ (pieces_text key (name_of key) first ++ some)) opened → (more : List ℕ) × (opened ≡ joined first ++ more) }
{}

/// Suppose that each right tag of a text was made by whoever sealed these texts with the key, and
/// that no two different texts that they tagged have the same tag. Then what is opened of the text
/// is one of these texts, or a beginning of one. So nobody who can't make a tag can put two texts
/// together, leave a piece out or change the order.
pub fn opened_texts_were_sealed()
    ensures one { (key : List ℕ) (texts : List (List ℕ)) (input opened : List ℕ) → NoneIsForged key texts input → TagsTellApart key texts → IsOpenedWith key input opened → BeginsOneOf texts opened }
    ensures any { (keys : List (List ℕ)) (texts : List ℕ → List (List ℕ)) (input opened : List ℕ) → All (λ key. NoneIsForged key (texts key) input) keys → All (λ key. TagsTellApart key (texts key)) keys → IsOpened keys input opened → (key : List ℕ) × Contains keys key × BeginsOneOf (texts key) opened }
{}

/// The premise of [`opened_texts_were_sealed`] holds of each text that was sealed, and of each
/// beginning of it.
pub fn unchanged_texts_are_unforged()
    ensures { (key text cut missing : List ℕ) (texts : List (List ℕ)) → Contains texts text → cut ++ missing ≡ sealed key text → NoneIsForged key texts cut }
{}
