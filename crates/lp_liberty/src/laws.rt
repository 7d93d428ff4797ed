//! Laws about the definitions alone: each is the clause of a function that does nothing.
ghost use Rattle.std.specs.Prelude.{◌≡◌, ℕ, List};
ghost use Rattle.lp_model.specs.GroupsView.{GroupView};
ghost use Rattle.lp_model.specs.declared.fault.refusal.Refusal.{Refusal};
ghost use Rattle.lp_model.specs.declared.fault.refusal.Refusal.TheVariants as refusals;
ghost use Rattle.lp_liberty.specs.Denotes.{Denotes, RefusedAs, SameFault};
ghost use Rattle.lp_liberty.specs.Spelling.{Listed};
ghost use Rattle.lp_liberty.specs.Tokens.{Placed, tokens_of};
ghost use Rattle.lp_liberty.specs.declared.mark.Context.TheVariants as contexts;

/// Each Liberty text denotes at most one list of groups.
pub fn one_list_of_groups()
    ensures { (text : List ℕ) (a b : List GroupView) → Denotes text a → Denotes text b → a ≡ b }
{}

/// The tokens of a Liberty text are those that stand in it, and no others do.
pub fn one_list_of_tokens()
    ensures found { (text : List ℕ) → Listed contexts.Statement 0 text (tokens_of text) }
    ensures once { (text : List ℕ) (a b : List Placed) → Listed contexts.Statement 0 text a → Listed contexts.Statement 0 text b → a ≡ b }
{}

/// A Liberty text is read or refused, and in one way: only want of memory comes beside.
pub fn one_answer()
    ensures read { (file : ℕ) (text : List ℕ) (groups : List GroupView) (r : Refusal) → Denotes text groups → RefusedAs file text r → r ≡ refusals.NoMemory }
    ensures refused { (file : ℕ) (text : List ℕ) (r s : Refusal) → RefusedAs file text r → RefusedAs file text s → SameFault r s }
{}
