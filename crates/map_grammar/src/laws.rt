//! What follows from the definitions, for any words and declarations.

ghost use Rattle.std.specs.Prelude.{◌≡◌, List, Result, map};
ghost use Rattle.c_lex.specs.declared.lexer.LexFault.{LexFault};
ghost use Rattle.map_grammar.specs.declared.word.Word.{Word};
ghost use Rattle.map_grammar.specs.declared.declaration.MapDecl.{MapDecl};
ghost use Rattle.map_grammar.specs.declared.fault.MapFault.{MapFault};
ghost use Rattle.map_grammar.specs.declared.fault.MapFault.TheVariants.{NoMemory};
ghost use Rattle.map_grammar.specs.Grammar.{IsDeclaration};
ghost use Rattle.map_grammar.specs.MapText.{IsMap, IsRefusal};
ghost use Rattle.map_grammar.specs.Spelling.{spelling};

/// Two declarations of the same words are equal.
pub fn one_tree()
    ensures { (words : List Word) (a b : MapDecl) → IsDeclaration a words → IsDeclaration b words → a ≡ b }
{}

/// A declaration is spelled as the words that it was read from.
pub fn spelled_as_read()
    ensures { (words : List Word) (d : MapDecl) → IsDeclaration d words → spelling d ≡ map (λ w. w.text) words }
{}

/// A text has one list of declarations at most.
pub fn one_map()
    ensures { (lexed : Result (List Word) LexFault) (a b : List MapDecl) → IsMap lexed a → IsMap lexed b → a ≡ b }
{}

/// A text that has declarations is refused for want of memory alone.
pub fn no_map_refused()
    ensures { (lexed : Result (List Word) LexFault) (ds : List MapDecl) (fault : MapFault) → IsMap lexed ds → IsRefusal lexed fault → fault ≡ NoMemory }
{}
