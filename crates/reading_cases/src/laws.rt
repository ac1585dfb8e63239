//! The laws of the lexer, the grammar and the reader, which hold of every text.

/// Names each once.
pub fn all() {
    lus_lexer::laws::one_reading();
    lus_lexer::laws::in_order();
    lus_lexer::laws::placed();
    lus_lexer::laws::spelled();
    lus_lexer::laws::only_blanks();
    lus_lexer::laws::fits();
    contract_reader::one_tree();
}
