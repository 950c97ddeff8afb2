//! Laws of cards and chains: facts about every design, which callers learn by a call.
ghost use Rattle.std.specs.Prelude.{◌≡◌, ◌↔◌, ◌^◌, ◌<◌, ◌++◌, ℕ, List, [], Bool, true, false, None, Some, length, slice_index, slice_index_or};
ghost use Rattle.mill_base.specs.declared.face.Face.{Face};
ghost use Rattle.casting_out.specs.Castings.{CastingValue, IsCasting, column_of};
ghost use Rattle.casting_out.specs.Cards.{card as card_of_row};
ghost use Rattle.point_paper.specs.Papers.{BitCells};
ghost use Rattle.draft_model.specs.Cards.{card};
ghost use Rattle.card_image.specs.declared.fault.ChainFault.{ChainFault};
ghost use Rattle.card_image.specs.Sets.{CardDesign, cards_up, hangs, other_face, turned_card};
ghost use Rattle.card_image.specs.Faults.{chain_fault, end_fault};
ghost use Rattle.card_image.specs.Chains.{Chain};

/// A chain has no fault: so it is read to its end, and what has a fault is no chain.
pub fn chains_have_no_fault()
    ensures { (d : CardDesign) (bytes : List ℕ) (face : Face) (cards : List (List Bool)) → d.hooks < 2 ^ 32
        → d.picks < 2 ^ 32 → Chain d bytes face cards
        → end_fault d bytes ≡ None }
{}

/// Bytes that have no fault at their end are the chain of some cards.
pub fn bytes_without_a_fault_are_a_chain()
    ensures { (d : CardDesign) (bytes : List ℕ) → ((i : ℕ) → slice_index bytes i < 256) → end_fault d bytes ≡ None
        → (face : Face) × (cards : List (List Bool)) × Chain d bytes face cards }
{}

/// A fault of the first bytes is the fault of all: more bytes change no fault.
pub fn faults_stay()
    ensures { (d : CardDesign) (first more : List ℕ) (fault : ChainFault) → chain_fault d first ≡ Some fault
        → chain_fault d (first ++ more) ≡ Some fault }
{}

/// A card set with its face has one chain.
pub fn cards_have_one_chain()
    ensures { (d : CardDesign) (one other : List ℕ) (face : Face) (cards : List (List Bool))
        → Chain d one face cards → Chain d other face cards → one ≡ other }
{}

/// A chain has one face and one card set.
pub fn a_chain_has_one_card_set()
    ensures face { (d : CardDesign) (bytes : List ℕ) (one other : Face) (cards more : List (List Bool))
        → Chain d bytes one cards → Chain d bytes other more → one ≡ other }
    ensures cards { (d : CardDesign) (bytes : List ℕ) (one other : Face) (cards more : List (List Bool))
        → Chain d bytes one cards → Chain d bytes other more → cards ≡ more }
{}

/// The cards that are cut of a paper are one for each pick, each that of the pick.
pub fn cut_cards_are_those_of_the_picks()
    ensures count { (casting : CastingValue) (bits : BitCells) → length (cards_up casting bits) ≡ length bits.rows }
    ensures card { (casting : CastingValue) (bits : BitCells) (pick : ℕ) → pick < length bits.rows
        → slice_index_or (cards_up casting bits) pick [] ≡ card casting bits Face.Up pick }
{}

/// A card that is turned is the card of the same pick for a cloth that lies on its other face.
pub fn turned_cards_are_those_of_the_other_face()
    ensures row { (casting : CastingValue) (face : Face) (row : List Bool) → IsCasting casting
        → turned_card casting.hooks casting.columns (card_of_row casting.hooks casting.columns face row)
        ≡ card_of_row casting.hooks casting.columns (other_face face) row }
    ensures pick { (casting : CastingValue) (bits : BitCells) (face : Face) (pick : ℕ) → IsCasting casting
        → turned_card casting.hooks casting.columns (card casting bits face pick)
        ≡ card casting bits (other_face face) pick }
{
    casting_out::laws::columns_and_hooks_match();
    casting_out::laws::holes_are_cells();
}

/// A column hangs on a hook exactly where the hook has a column.
pub fn columns_hang_on_their_hooks()
    ensures none { (columns : List ℕ) (h : ℕ) → (hangs columns h ≡ false) ↔ (column_of columns h ≡ None) }
    ensures some { (columns : List ℕ) (h : ℕ) → (hangs columns h ≡ true) ↔ ((c : ℕ) × (column_of columns h ≡ Some c)) }
{
    casting_out::laws::columns_and_hooks_match();
}

/// Where there are as many columns as hooks each column hangs on the hook of its own number.
pub fn columns_of_a_full_machine_have_their_own_hooks()
    ensures { (casting : CastingValue) (c : ℕ) → IsCasting casting → length casting.columns ≡ casting.hooks → c < casting.hooks
        → slice_index casting.columns c ≡ c }
{}
