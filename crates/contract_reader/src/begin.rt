//! With which token a part begins.

ghost use Rattle.std.specs.Prelude.{◌≡◌, [], ◌∷◌, Some, true};
ghost use Rattle.lus_grammar.specs.Starts.{class_code, code, codes_of, conditions, listed};
ghost use Rattle.contract_reader.specs.Begin.{contract_item_start_of, contract_start_of, declaration_start_of, locals_start_of, mode_item_start_of};

use lus_lexer::{Class, Keyword, Opening, Sign};

/// The first token of a declaration.
#[derive(Clone, Copy)]
pub enum DeclarationStart {
    Constant,
    Node,
    Function,
    Contract,
}

/// The first token of locals.
#[derive(Clone, Copy)]
pub enum LocalsStart {
    Variables,
    Constant,
}

/// The first token of a contract's item.
#[derive(Clone, Copy)]
pub enum ContractItemStart {
    Assume,
    Guarantee,
    Ghost,
    Constant,
    Mode,
    Import,
}

/// The first token of a mode's item.
#[derive(Clone, Copy)]
pub enum ModeItemStart {
    Require,
    Ensure,
}

/// With which of its tokens a declaration begins, if one does.
pub fn declaration_start(class: Option<Class>) -> Option<DeclarationStart>
    ensures { result ≡ declaration_start_of class }
{
    match class {
        Some(Class::Keyword(Keyword::Const)) => Some(DeclarationStart::Constant),
        Some(Class::Keyword(Keyword::Node)) => Some(DeclarationStart::Node),
        Some(Class::Keyword(Keyword::Function)) => Some(DeclarationStart::Function),
        Some(Class::Keyword(Keyword::Contract)) => Some(DeclarationStart::Contract),
        _ => None,
    }
}

/// With which of their tokens locals begin, if some do.
pub fn locals_start(class: Option<Class>) -> Option<LocalsStart>
    ensures { result ≡ locals_start_of class }
{
    match class {
        Some(Class::Keyword(Keyword::Var)) => Some(LocalsStart::Variables),
        Some(Class::Keyword(Keyword::Const)) => Some(LocalsStart::Constant),
        _ => None,
    }
}

/// With which of its tokens a contract begins, if one does.
pub fn contract_start(class: Option<Class>) -> Option<Opening>
    ensures { result ≡ contract_start_of class }
{
    match class {
        Some(Class::ContractOpen(opening)) => Some(opening),
        _ => None,
    }
}

/// With which of its tokens a contract's item begins, if one does.
pub fn contract_item_start(class: Option<Class>) -> Option<ContractItemStart>
    ensures { result ≡ contract_item_start_of class }
{
    match class {
        Some(Class::Keyword(Keyword::Assume)) => Some(ContractItemStart::Assume),
        Some(Class::Keyword(Keyword::Guarantee)) => Some(ContractItemStart::Guarantee),
        Some(Class::Keyword(Keyword::Var)) => Some(ContractItemStart::Ghost),
        Some(Class::Keyword(Keyword::Const)) => Some(ContractItemStart::Constant),
        Some(Class::Keyword(Keyword::Mode)) => Some(ContractItemStart::Mode),
        Some(Class::Keyword(Keyword::Import)) => Some(ContractItemStart::Import),
        _ => None,
    }
}

/// With which of its tokens a mode's item begins, if one does.
pub fn mode_item_start(class: Option<Class>) -> Option<ModeItemStart>
    ensures { result ≡ mode_item_start_of class }
{
    match class {
        Some(Class::Keyword(Keyword::Require)) => Some(ModeItemStart::Require),
        Some(Class::Keyword(Keyword::Ensure)) => Some(ModeItemStart::Ensure),
        _ => None,
    }
}

/// Whether a token is a name.
pub fn is_name(class: Option<Class>) -> bool
    ensures { listed (code class) (class_code Class.Ident ∷ []) ≡ result }
{
    match class {
        Some(Class::Ident) => true,
        _ => false,
    }
}

/// Whether a token is a comma.
pub fn is_comma(class: Option<Class>) -> bool
    ensures listed { listed (code class) (class_code (Class.Sign Sign.Comma) ∷ []) ≡ result }
    ensures class { result ≡ true → class ≡ Some (Class.Sign Sign.Comma) }
{
    match class {
        Some(Class::Sign(Sign::Comma)) => true,
        _ => false,
    }
}

/// Whether a token is a semicolon.
pub fn is_semicolon(class: Option<Class>) -> bool
    ensures listed { listed (code class) (class_code (Class.Sign Sign.Semicolon) ∷ []) ≡ result }
    ensures class { result ≡ true → class ≡ Some (Class.Sign Sign.Semicolon) }
{
    match class {
        Some(Class::Sign(Sign::Semicolon)) => true,
        _ => false,
    }
}

/// Whether an expression begins with a token.
pub fn begins_expression(class: Option<Class>) -> bool
    ensures { listed (code class) (codes_of conditions) ≡ result }
{
    match class {
        Some(Class::Number) | Some(Class::Ident) => true,
        Some(Class::Keyword(Keyword::True)) | Some(Class::Keyword(Keyword::False)) => true,
        Some(Class::Sign(Sign::DoubleColon)) | Some(Class::Sign(Sign::Open)) => true,
        Some(Class::Keyword(Keyword::Merge)) | Some(Class::Keyword(Keyword::Condact)) => true,
        Some(Class::Keyword(Keyword::Not)) | Some(Class::Sign(Sign::Minus)) => true,
        Some(Class::Keyword(Keyword::Pre)) | Some(Class::Keyword(Keyword::If)) => true,
        _ => false,
    }
}
