ghost use Rattle.chunk_index.specs.Changes.{ChangesOneKey};
ghost use Rattle.chunk_index.specs.Items.{WalksAreInOrder};
ghost use Rattle.chunk_index.specs.KeyMeaning.{IsKeyOrder};

/// A law: keys stand in a strict order, by falling rate, then by rising serial, position and size.
pub fn keys_stand_by_rate()
    ensures { IsKeyOrder }
{}

/// A law: an insertion adds the key of its entry, a removal takes that key out, and no other key comes or goes.
pub fn changes_touch_one_key()
    ensures { ChangesOneKey }
{}

/// A law: where the entries of an index are in key order, so are those of a level and those of one tag.
pub fn walks_are_in_order()
    ensures { WalksAreInOrder }
{}
