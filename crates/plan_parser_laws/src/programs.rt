//! The written grammar of declarations and programs, and the laws that the readers keep to it.
//!
//! Each law stands on a function without code, so that contracts of other crates can name it.

ghost use Rattle.std.specs.Prelude.{◌≡◌, ◌≢◌, ◌↔◌, ℕ, List, Ok, Err, ◌≤◌, ◌<◌};
ghost use Rattle.plan_base.specs.declared.tree.Draft.{Draft};
ghost use Rattle.plan_lexer.specs.declared.token.Token.{Token};
ghost use Rattle.plan_parser_exprs.specs.declared.fault.ParseFault.{ParseFault};
ghost use Rattle.plan_parser_exprs.specs.declared.fault.ParseFault.TheVariants as fault;
ghost use Rattle.plan_parser_exprs.specs.declared.node.Node.{Node};
ghost use Rattle.plan_parser_exprs.specs.Ahead.{Front};
ghost use Rattle.plan_parser_laws.specs.Grammar.{ExprAt};
ghost use Rattle.plan_parser_laws.specs.Follow.{EndsExpr};
ghost use Rattle.plan_parser.specs.Programs.{program_of};
ghost use Rattle.plan_parser_laws.specs.ProgramGrammar.{ProgramAt};
ghost use Rattle.plan_parser_laws.specs.ProgramAgenda.{FirstProgramRefusal, IsProgramOrRefused, IsJudgedBy, IsSized};
ghost use Rattle.plan_base.specs.Sizes.{expr_depth, expr_nodes};
ghost use Rattle.plan_parser_laws.specs.Agenda.{body_size};
ghost use Rattle.plan_parser_laws.specs.Written.{expr_tree, Holds};

/// What is read as a program is one by the grammar, with the places of its declarations and expressions.
pub fn programs_read_are_written()
    ensures { (tokens : List Token) (end : ℕ) (d : Draft) → program_of tokens end ≡ Ok d → ProgramAt
        tokens end d }
{}

/// A program of the grammar is read.
pub fn programs_written_are_read()
    ensures { (tokens : List Token) (end : ℕ) (d : Draft) → ProgramAt tokens end d → program_of
        tokens end ≡ Ok d }
{}

/// Tokens are at most one program.
pub fn programs_have_one_reading()
    ensures { (tokens : List Token) (end : ℕ) (d e : Draft) → ProgramAt tokens end d → ProgramAt
        tokens end e → d ≡ e }
{}

/// A program is refused exactly with the first refusal of its agenda, and tokens have at most one.
pub fn program_refusals_are_first()
    ensures first { (tokens : List Token) (end : ℕ) (e : ParseFault) →
        (program_of tokens end ≡ Err e) ↔ FirstProgramRefusal e tokens end }
    ensures one { (tokens : List Token) (end : ℕ) (d e : ParseFault) → FirstProgramRefusal d tokens
        end → FirstProgramRefusal e tokens end → d ≡ e }
{}

/// Tokens are a program or have a first refusal, and not both.
pub fn programs_have_one_answer()
    ensures some { (tokens : List Token) (end : ℕ) → IsProgramOrRefused tokens end }
    ensures apart { (tokens : List Token) (end : ℕ) (d : Draft) (e : ParseFault) → ProgramAt tokens
        end d → FirstProgramRefusal e tokens end → ⊥ }
{}

/// The agenda judges a body by the depth and the number of the expressions that the grammar gives it.
pub fn what_is_judged()
    ensures body { (f g : Front) (n : Node) → ExprAt 160 f n g → EndsExpr g → IsJudgedBy f n }
    ensures some { (f : Front) → IsSized f }
{}

/// No first refusal of a program is `NoMemory`.
pub fn program_refusals_hold_no_memory()
    ensures { (tokens : List Token) (end : ℕ) (e : ParseFault) → program_of tokens end ≡ Err e → e ≢
        fault.NoMemory }
{}

/// What is read as an expression is the tree that is written, or is only said to be deeper than 64 where the written tree
/// is.
pub fn trees_are_written()
    ensures { (r : ℕ) (f g : Front) (n : Node) → (e : ExprAt r f n g) → Holds n (expr_tree e) }
{}

/// A body is judged by the depth and, where that is kept, by the number of expressions of the written tree.
pub fn bodies_are_judged_as_written()
    ensures deep { (f g : Front) (n : Node) → (e : ExprAt 160 f n g) → EndsExpr g →
        (64 < (body_size f).0) ↔ (64 < expr_depth (expr_tree e)) }
    ensures many { (f g : Front) (n : Node) → (e : ExprAt 160 f n g) → EndsExpr g → expr_depth
        (expr_tree e) ≤ 64 → (body_size f).1 ≡ expr_nodes (expr_tree e) }
{}
