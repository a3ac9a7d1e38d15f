//! Laws of the definitions alone.

ghost use Rattle.std.specs.Prelude.{◌≡◌, ◌≤◌, ◌<◌, ◌^◌, ◌-◌, ◌++◌, ℕ, Bool, List, [], Some, Ok, sum_by, Contains, if◌then◌else◌};
ghost use Rattle.proto_wire.specs.Reading.{IsBytes};
ghost use Rattle.hpack_tables.specs.declared.header.Header.{Header};
ghost use Rattle.hpack_tables.specs.Huffman.{Code, all_codes, code_bits, IsHuffman, text_of};
ghost use Rattle.hpack_tables.specs.Table.{HeaderTable, list_size, with_max};
ghost use Rattle.hpack_tables.specs.Block.{IsBlock, max_list};
ghost use Rattle.hpack_tables.specs.Reading.{block_at};
ghost use Rattle.hpack_tables.specs.Encoding.{block_spelled};

/// No code is a prefix of another, and the code is complete: its Kraft sum is 1.
pub fn code_is_complete()
    ensures prefix { (a b : Code) (rest : List Bool) → Contains all_codes a → Contains all_codes b → code_bits b ≡ code_bits a ++ rest → a ≡ b }
    ensures complete { sum_by (λ code. 2 ^ (30 - code.len)) all_codes ≡ 2 ^ 30 }
{}

/// A coded string is read as a text exactly if the codes of the text and a padding spell it, and only one coded string spells a
/// text.
pub fn strings_are_by_the_code()
    ensures read { (bytes text : List ℕ) → text_of bytes ≡ Some text → IsHuffman bytes text }
    ensures spelled { (bytes text : List ℕ) → IsHuffman bytes text → text_of bytes ≡ Some text }
    ensures one { (a b text : List ℕ) → IsBytes a → IsBytes b → IsHuffman a text → IsHuffman b text → a ≡ b }
{}

/// A block is read as headers exactly if the grammar relates it to them by the table and they are within the limit.
pub fn blocks_are_by_the_grammar()
    ensures read { (t t' : HeaderTable) (bytes : List ℕ) (headers : List Header) → IsBytes bytes → block_at t bytes ≡ Ok (headers, t') → IsBlock t bytes headers t' × (list_size headers ≤ max_list) }
    ensures spelled { (t t' : HeaderTable) (bytes : List ℕ) (headers : List Header) → IsBlock t bytes headers t' → list_size headers ≤ max_list → block_at t bytes ≡ Ok (headers, t') }
{}

/// Reading a block of `encode_block` gives its headers back, whatever the table is. The table stays as it is, or is emptied if
/// the block shrinks it.
pub fn encoded_is_decoded()
    ensures { (t : HeaderTable) (headers : List Header) (shrink : Bool) → list_size headers ≤ max_list → block_at t (block_spelled headers shrink) ≡ Ok (headers, if shrink then with_max t 0 else t) }
{}
