// Sets of kinds that the steps ask for.
ghost use Rattle.std.specs.Prelude.{◌≡◌, ◌&&◌, [], ◌∷◌};
ghost use Rattle.rules.specs.Rules.Words.{one_of, is};
ghost use Rattle.parser.specs.Documents.{marks};

use records::tokens::Token;

pub(crate) fn ends_entry(kind: u32) -> bool
    ensures { result ≡ one_of kind (16 ∷ 11 ∷ []) }
{
    match kind {
        Token::BLOCK_ENTRY => true,
        Token::BLOCK_END => true,
        _ => false,
    }
}

pub(crate) fn ends_pair(kind: u32) -> bool
    ensures { result ≡ one_of kind (18 ∷ 19 ∷ 11 ∷ []) }
{
    match kind {
        Token::KEY => true,
        Token::VALUE => true,
        Token::BLOCK_END => true,
        _ => false,
    }
}

pub(crate) fn ends_indentless(kind: u32) -> bool
    ensures { result ≡ one_of kind (16 ∷ 18 ∷ 19 ∷ 11 ∷ []) }
{
    match kind {
        Token::BLOCK_ENTRY => true,
        Token::KEY => true,
        Token::VALUE => true,
        Token::BLOCK_END => true,
        _ => false,
    }
}

pub(crate) fn ends_flow_key(kind: u32) -> bool
    ensures { result ≡ one_of kind (19 ∷ 17 ∷ 15 ∷ []) }
{
    match kind {
        Token::VALUE => true,
        Token::FLOW_ENTRY => true,
        Token::FLOW_MAPPING_END => true,
        _ => false,
    }
}

pub(crate) fn ends_flow_value(kind: u32) -> bool
    ensures { result ≡ one_of kind (17 ∷ 15 ∷ []) }
{
    match kind {
        Token::FLOW_ENTRY => true,
        Token::FLOW_MAPPING_END => true,
        _ => false,
    }
}

pub(crate) fn ends_single_key(kind: u32) -> bool
    ensures { result ≡ one_of kind (19 ∷ 17 ∷ 13 ∷ []) }
{
    match kind {
        Token::VALUE => true,
        Token::FLOW_ENTRY => true,
        Token::FLOW_SEQUENCE_END => true,
        _ => false,
    }
}

pub(crate) fn ends_single_value(kind: u32) -> bool
    ensures { result ≡ one_of kind (17 ∷ 13 ∷ []) }
{
    match kind {
        Token::FLOW_ENTRY => true,
        Token::FLOW_SEQUENCE_END => true,
        _ => false,
    }
}

pub(crate) fn directive(kind: u32) -> bool
    ensures { result ≡ one_of kind (3 ∷ 4 ∷ 5 ∷ []) }
{
    match kind {
        Token::VERSION_DIRECTIVE => true,
        Token::TAG_DIRECTIVE => true,
        Token::RESERVED_DIRECTIVE => true,
        _ => false,
    }
}

pub(crate) fn opens_document(kind: u32) -> bool
    ensures { result ≡ one_of kind (3 ∷ 4 ∷ 5 ∷ 6 ∷ []) }
{
    match kind {
        Token::VERSION_DIRECTIVE => true,
        Token::TAG_DIRECTIVE => true,
        Token::RESERVED_DIRECTIVE => true,
        Token::DOCUMENT_START => true,
        _ => false,
    }
}

pub(crate) fn no_content(kind: u32) -> bool
    ensures { result ≡ one_of kind (3 ∷ 4 ∷ 5 ∷ 6 ∷ 7 ∷ 8 ∷ 2 ∷ []) }
{
    match kind {
        Token::VERSION_DIRECTIVE => true,
        Token::TAG_DIRECTIVE => true,
        Token::RESERVED_DIRECTIVE => true,
        Token::DOCUMENT_START => true,
        Token::DOCUMENT_END => true,
        Token::BYTE_ORDER_MARK => true,
        Token::STREAM_END => true,
        _ => false,
    }
}

pub(crate) fn after_marks(kind: u32) -> bool
    ensures { result ≡ one_of kind (6 ∷ 7 ∷ 2 ∷ []) }
{
    match kind {
        Token::DOCUMENT_START => true,
        Token::DOCUMENT_END => true,
        Token::STREAM_END => true,
        _ => false,
    }
}

// A kind that counts only where a flag is set.
pub(crate) fn when(flag: bool, t: Token, kind: u32) -> bool
    ensures { result ≡ flag && is t kind }
{
    if flag { t.kind == kind } else { false }
}

// A ByteOrderMark or, with `ends`, a DocumentEnd.
pub(crate) fn mark(kind: u32, ends: bool) -> bool
    ensures { result ≡ one_of kind (marks ends) }
{
    match kind {
        Token::BYTE_ORDER_MARK => true,
        Token::DOCUMENT_END => ends,
        _ => false,
    }
}
