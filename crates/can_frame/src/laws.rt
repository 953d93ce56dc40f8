ghost use Rattle.std.specs.Prelude.{◌≡◌, ◌≢◌, ◌<◌, ◌≤◌, ◌↔◌, ◌⊎◌, ◌/◌, ◌^◌, ◌++◌, [], ℕ, List, length, true, false, IsTrue};
ghost use Rattle.can_frame.specs.Frames.{CanFrame, Identifier, IsIdentifier, is_remote, word_of};
ghost use Rattle.can_frame.specs.Frames.Payload.{Data, Remote, Fd};
ghost use Rattle.can_frame.specs.Arbitration.{arbitration_bits, GoesBefore, goes_before, Outranks, key_of, Wins, DifferInBits};
ghost use Rattle.can_frame.specs.FrameText.{frame_spelling, IsItem, Spells};
ghost use Rattle.can_frame.specs.declared.fd_flags.FdFlags.{FdFlags};
ghost use Rattle.can_frame.specs.declared.item.Item.{Item as AnItem};

/// A frame with a lower key outranks a frame with a higher key. Two frames have the same key exactly if their arbitration bits are
/// equal.
pub fn keys_order_frames()
    ensures before { (a b : CanFrame) → (key_of a < key_of b) ↔ Outranks a b }
    ensures same { (a b : CanFrame) →
        (key_of a ≡ key_of b) ↔ (arbitration_bits a ≡ arbitration_bits b) }
{}

/// The test `goes_before` is true exactly if the rule `GoesBefore` holds.
pub fn test_is_the_rule()
    ensures { (xs ys : List ℕ) → IsTrue (goes_before xs ys) ↔ GoesBefore xs ys }
{}

/// The rule `GoesBefore` is a strict order. Of two frames with different arbitration bits, one outranks the other.
pub fn going_before_is_an_order()
    ensures never_itself { (xs : List ℕ) → GoesBefore xs xs → ⊥ }
    ensures passes_on { (xs ys zs : List ℕ) →
        GoesBefore xs ys → GoesBefore ys zs → GoesBefore xs zs }
    ensures one_of_two { (a b : CanFrame) →
        arbitration_bits a ≢ arbitration_bits b → Outranks a b ⊎ Outranks b a }
{}

/// Arbitration ends before the bits of a frame end: the arbitration bits of one frame are never a proper prefix of another frame's.
pub fn no_bits_begin_others()
    ensures { (a b : CanFrame) (rest : List ℕ) →
        arbitration_bits b ≡ arbitration_bits a ++ rest → rest ≡ [] }
{}

/// If the arbitration bits of all frames differ, exactly one frame outranks all the others.
pub fn one_frame_wins()
    ensures some { (frames : List CanFrame) →
        1 ≤ length frames → DifferInBits frames → (w : ℕ) × Wins frames w }
    ensures alone { (frames : List CanFrame) (v w : ℕ) →
        Wins frames v → Wins frames w → v ≡ w }
{}

/// A data frame or an FD frame outranks a remote frame with the same identifier.
pub fn data_outranks_remote()
    ensures data { (id : Identifier) (bytes : List ℕ) (len : ℕ) →
        Outranks
        (record { id = id; payload = Data bytes })
        (record { id = id; payload = Remote len }) }
    ensures fd { (id : Identifier) (flags : FdFlags) (bytes : List ℕ) (len : ℕ) →
        Outranks
        (record { id = id; payload = Fd flags bytes })
        (record { id = id; payload = Remote len }) }
{}

/// In arbitration an FD frame has the same bits as a data frame with the same identifier, whatever its flags are.
pub fn fd_frames_compete_as_data_frames()
    ensures bits { (id : Identifier) (flags : FdFlags) (bytes others : List ℕ) →
        arbitration_bits (record { id = id; payload = Fd flags bytes })
        ≡ arbitration_bits (record { id = id; payload = Data others }) }
    ensures word { (id : Identifier) (flags : FdFlags) (bytes others : List ℕ) →
        word_of (record { id = id; payload = Fd flags bytes })
        ≡ word_of (record { id = id; payload = Data others }) }
{}

/// A frame with an 11-bit identifier outranks every frame with a 29-bit identifier that begins with these 11 bits, whatever the
/// kinds of the frames are.
pub fn standard_outranks_extended()
    ensures { (a b : CanFrame) →
        a.id.extended ≡ false → b.id.extended ≡ true →
        b.id.number / 2 ^ 18 ≡ a.id.number → Outranks a b }
{}

/// Two frames with equal arbitration bits have the same identifier, and both or neither are remote frames. They can only differ in
/// length, in data, in whether they are FD frames, and in FD flags.
pub fn equal_bits_mean_one_identifier()
    ensures { (a b : CanFrame) →
        IsIdentifier a.id → IsIdentifier b.id → arbitration_bits a ≡ arbitration_bits b →
        (a.id ≡ b.id) × (is_remote a.payload ≡ is_remote b.payload) }
{}

/// No text spells two different items, so no two items have the same written form.
pub fn frame_texts_tell_items_apart()
    ensures spelled { (text : List ℕ) (a b : AnItem) →
        IsItem a → IsItem b → Spells text a → Spells text b → a ≡ b }
    ensures written { (a b : AnItem) →
        IsItem a → IsItem b → frame_spelling a ≡ frame_spelling b → a ≡ b }
{}

/// The written form of an item spells that item, so reading it returns the item.
pub fn written_frame_text_spells_its_item()
    ensures { (i : AnItem) → IsItem i → Spells (frame_spelling i) i }
{}
