ghost use Rattle.std.specs.Prelude.{ℕ, List};
ghost use Rattle.relation_reader.specs.Tokens.{HasOneSplit};
ghost use Rattle.relation_reader.specs.Grammar.{SpellsOnce, TableIsGrammar, TableIsTight};
ghost use Rattle.relation_reader.specs.Meaning.{HasOneReading};

/// The laws of reading. Each text has its tokens or one fault of tokens, and only one of these. The table of places
/// lets through the texts of the grammar, and refuses a token only where none of them goes on with it. Each of them is
/// spelled by one tree. So each text has one reading or one first fault, and never both.
pub fn reading_laws()
    ensures split { (text : List ℕ) → HasOneSplit text }
    ensures grammar { TableIsGrammar }
    ensures tight { TableIsTight }
    ensures once { SpellsOnce }
    ensures reading { HasOneReading }
{}
