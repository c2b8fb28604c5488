ghost use Rattle.std.specs.Prelude.{◌≡◌, ◌==◌, ℕ, List, [], Some, IsSome, Ok, Err, map};
ghost use Rattle.std.specs.List.{list_any, filter};
ghost use Rattle.std.specs.List.Sorted.{IsStrictlySortedBy, IsPermutation};
ghost use Rattle.std.specs.Ordering.{nat_cmp};
ghost use Rattle.std.specs.Cmp.Lexicographic.{slice_cmp};
ghost use Rattle.aes_modes.specs.Cipher.{IsBlock};
ghost use Rattle.aes_modes.specs.Modes.{cbc_of};
ghost use Rattle.knx_base.specs.declared.address.GroupAddr.{GroupAddr};
ghost use Rattle.knx_base.specs.declared.address.IndAddr.{IndAddr};
ghost use Rattle.keyring_reader.specs.declared.fault.KeyringFault.{KeyringFault};
ghost use Rattle.keyring_reader.specs.declared.keys.Wrapping.{Wrapping};
ghost use Rattle.keyring_reader.specs.Contents.{Contents, contents_in, contents_of};
ghost use Rattle.keyring_reader.specs.Elements.{elements_of};
ghost use Rattle.keyring_reader.specs.Nesting.{IsTree};
ghost use Rattle.keyring_reader.specs.Refusals.{NoneRefused, IsFirstRefusal};
ghost use Rattle.keyring_reader.specs.Roles.{by_group, by_device, ascending};
ghost use Rattle.keyring_reader.specs.Keys.{base64_of, stored_block, unwrapped, key_named, password_key};
ghost use Rattle.keyring_reader.specs.Keys.{short_hash, IsBlockText, IsWrapping, IsKeyText};
ghost use Rattle.keyring_reader.specs.Signed.{is_signed, by_name};
ghost use Rattle.tag_text.specs.Elements.{IsWhole};
ghost use Rattle.tag_text.specs.Names.{DifferInName};
ghost use Rattle.tag_text.specs.declared.tag.Tag.{Tag};

/// The groups, the devices and the senders that role rows are told of ascend, and are those of the list that is put in
/// order; the names of the attributes that are signed ascend, and those are the signed ones of the tag, each once: no
/// tag names an attribute twice.
pub fn lists_ascend()
    ensures groups { (groups : List GroupAddr) → IsStrictlySortedBy by_group (ascending (λ group. group.0) groups) }
    ensures same_groups { (groups : List GroupAddr) (n : ℕ) → list_any (λ group. group.0 == n)
        (ascending (λ group. group.0) groups) ≡ list_any (λ group. group.0 == n) groups }
    ensures devices { (devices : List IndAddr) → IsStrictlySortedBy by_device (ascending (λ device. device.0) devices) }
    ensures same_devices { (devices : List IndAddr) (n : ℕ) → list_any (λ device. device.0 == n)
        (ascending (λ device. device.0) devices) ≡ list_any (λ device. device.0 == n) devices }
    ensures names { (attributes : List (List ℕ × List ℕ)) → IsStrictlySortedBy (slice_cmp nat_cmp)
        (map (λ attribute. attribute.0) (by_name attributes)) }
    ensures same_attributes { (attributes : List (List ℕ × List ℕ)) → DifferInName attributes
        → IsPermutation (filter is_signed attributes) (by_name (filter is_signed attributes)) }
{}

/// The elements of a whole document are those of its tree, each with the names and attributes of those that it stands
/// in.
pub fn elements_are_nested()
    ensures { (octets : List ℕ) (tags : List Tag) → IsWhole octets tags → IsTree [] tags (elements_of tags) }
{}

/// The refusal that is told is the first cause of the first element, in the order of the document, that has one. Where
/// no element has one, what the keyring says is what its elements say, each by itself and in their order.
pub fn first_refusal_is_told()
    ensures told { (under : Wrapping) (tags : List Tag) (why : KeyringFault)
        → contents_of under tags ≡ Err why → IsFirstRefusal under (elements_of tags) why }
    ensures first { (under : Wrapping) (tags : List Tag) (why : KeyringFault)
        → IsFirstRefusal under (elements_of tags) why → contents_of under tags ≡ Err why }
    ensures none { (under : Wrapping) (tags : List Tag) (contents : Contents)
        → contents_of under tags ≡ Ok contents → NoneRefused under (elements_of tags) }
    ensures said { (under : Wrapping) (tags : List Tag) → NoneRefused under (elements_of tags)
        → contents_of under tags ≡ Ok (contents_in under (elements_of tags)) }
{}

/// A text is the base64 of one block at most, and every block has its text. Every text of a block unwraps to exactly
/// one key: a key is found by its own text, what is found has that text, and no text of a block is without a key. So it
/// is with what any password and any text of `Created` give.
pub fn blocks_are_found()
    ensures encoded { (block : List ℕ) → IsBlock block → stored_block (base64_of block) ≡ Some block }
    ensures stored { (text block : List ℕ) → stored_block text ≡ Some block → IsBlockText block text }
    ensures wrapped { (key vector wrapped plain : List ℕ) → unwrapped key vector wrapped ≡ Some plain
        → cbc_of key vector plain ≡ wrapped }
    ensures found { (under : Wrapping) (key text : List ℕ) → IsWrapping under → IsKeyText under key text
        → key_named under text ≡ Some key }
    ensures only { (under : Wrapping) (key text : List ℕ) → key_named under text ≡ Some key
        → IsKeyText under key text }
    ensures each { (under : Wrapping) (block text : List ℕ) → IsWrapping under → IsBlockText block text
        → IsSome (key_named under text) }
    ensures wraps { (password created : List ℕ)
        → IsWrapping (record { key = password_key password; vector = short_hash created }) }
{}
