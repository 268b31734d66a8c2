//! The written grammar of types, expressions, declarations, programs and values, the agenda of a reading, and the laws that
//! the readers keep to both.
//!
//! Each law stands on a function without code, so that contracts of other crates can name it.
//!
//! Of tokens stands here what is refused inside strings, chars, blobs and comments, and where.

ghost use Rattle.std.specs.Prelude.{◌≡◌, ◌≢◌, ◌↔◌, ℕ, suc, List, Ok, Err};
ghost use Rattle.plan_base.specs.declared.tree.Ty.{Ty};
ghost use Rattle.containers.specs.Agenda.{FirstFault};
ghost use Rattle.plan_parser_exprs.specs.declared.fault.ParseFault.{ParseFault};
ghost use Rattle.plan_parser_exprs.specs.declared.fault.ParseFault.TheVariants as fault;
ghost use Rattle.plan_parser_exprs.specs.declared.node.Node.{Node};
ghost use Rattle.plan_parser_exprs.specs.declared.level.Level.TheVariants as levels;
ghost use Rattle.plan_parser_exprs.specs.Ahead.{Front};
ghost use Rattle.plan_parser_exprs.specs.Types.{type_to};
ghost use Rattle.plan_parser_exprs.specs.Exprs.{expr_to};
ghost use Rattle.plan_parser_laws.specs.Grammar.{TypeAt, ExprAt};
ghost use Rattle.plan_parser_laws.specs.Follow.{EndsType, EndsExpr};
ghost use Rattle.plan_parser_laws.specs.Agenda.{GrammarItem, a_type, whole, step, FirstRefusal};
ghost use Rattle.plan_parser_laws.specs.Answers.{IsAnswered};

/// What is read as a type or an expression is one by the grammar.
pub fn what_is_read_is_written()
    ensures type_at { (r : ℕ) (f g : Front) (t : Ty) → type_to (suc r) f ≡ Ok (t, g) →
        TypeAt r f t g }
    ensures expr_at { (r : ℕ) (f g : Front) (n : Node) → expr_to (suc r) levels.Whole f ≡ Ok (n, g)
        → ExprAt r f n g }
{}

/// A type or an expression of the grammar is read, where the token behind it goes on with none.
pub fn what_is_written_is_read()
    ensures type_at { (r : ℕ) (f g : Front) (t : Ty) → TypeAt r f t g → EndsType g → type_to (suc r)
        f ≡ Ok (t, g) }
    ensures expr_at { (r : ℕ) (f g : Front) (n : Node) → ExprAt r f n g → EndsExpr g → expr_to
        (suc r) levels.Whole f ≡ Ok (n, g) }
{}

/// Tokens are at most one type and one expression, where the tokens behind them go on with none.
pub fn one_reading()
    ensures types { (r : ℕ) (f g h : Front) (t u : Ty) → TypeAt r f t g → EndsType g → TypeAt r f u
        h → EndsType h → (t ≡ u) × (g ≡ h) }
    ensures exprs { (r : ℕ) (f g h : Front) (n m : Node) → ExprAt r f n g → EndsExpr g → ExprAt r f
        m h → EndsExpr h → (n ≡ m) × (g ≡ h) }
{}

/// A reading is refused exactly with the first refusal of its agenda, and an agenda has at most one.
pub fn refusals_are_first()
    ensures types { (r : ℕ) (f : Front) (e : ParseFault) → (type_to (suc r) f ≡ Err e) ↔
        FirstRefusal e (a_type r) f }
    ensures exprs { (r : ℕ) (f : Front) (e : ParseFault) → (expr_to (suc r) levels.Whole f ≡ Err e)
        ↔ FirstRefusal e (whole r) f }
    ensures one { (i : GrammarItem) (f : Front) (d e : ParseFault) → FirstRefusal d i f →
        FirstRefusal e i f → d ≡ e }
{}

/// Tokens begin with an expression or have a first refusal, and not both where the expression ends.
pub fn one_answer()
    ensures some { (r : ℕ) (f : Front) → IsAnswered r f }
    ensures apart { (r : ℕ) (f g : Front) (n : Node) (e : ParseFault) → ExprAt r f n g → EndsExpr g
        → FirstRefusal e (whole r) f → ⊥ }
{}

/// No first refusal of an agenda is `NoMemory`.
pub fn refusals_hold_no_memory()
    ensures { (e : ParseFault) (items : List GrammarItem) (f : Front) → FirstFault step e items f →
        e ≢ fault.NoMemory }
{}
