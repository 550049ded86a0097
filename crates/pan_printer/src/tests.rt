//! Sources with their canonical texts.

ghost use Rattle.std.specs.Prelude.{◌≡◌, IfOk};
ghost use Rattle.pan_printer.specs.ReadsBack.{Spellable};

use crate::programs::{print, text_of_program};
use pan_base::{Blob, List, NoMemory, Span, Text, single};
use pan_lexer::lex;
use pan_parser::parse;
use pan_tree::{BlockOf, ExprKind, Function, Program, Shape, Spanned, StmtKind};
use std::alloc::Global;
use std::test::Fail;

const NOWHERE: Span = Span { start: 0, end: 0 };

fn at<K: Drop>(kind: K) -> Spanned<K>
    ensures { result.kind ≡ kind }
{
    Spanned {
        kind,
        span: NOWHERE,
    }
}

/// `fun main() { return 7; }`
fn return_7(alloc: Global) -> Result<Program, NoMemory>
    ensures { IfOk result (λ p. Spellable p) }
{
    let stmts = single(alloc, at(StmtKind::Return(at(ExprKind::Number(7)))))?;
    let main = Function {
        name: Text::from_str(alloc, "main")?,
        params: List::new(alloc),
        result: Shape::Word,
        body: BlockOf { stmts },
        span: NOWHERE,
    };
    let exceptions = List::new(alloc);
    let functions = single(alloc, main)?;
    Ok(Program {
        exceptions,
        functions,
    })
}

#[test]
fn prints_main(rt: HostRuntime) -> Result<(), Fail> {
    let alloc = rt.alloc();
    let text = print(alloc, &return_7(alloc)?)?;
    assert_eq!(rt;
        text.as_slice(),
        b"fun main ( ) {\nreturn 7 ;\n}\n".as_slice()
    );
    Ok(())
}

/// The canonical text of a source.
fn reprinted(alloc: Global, source: &str) -> Result<Blob, Fail> {
    let tokens = lex(alloc, source.as_bytes()).ok().ok_or("no tokens")?;
    let program = parse(alloc, &tokens).ok().ok_or("no program")?;
    Ok(text_of_program(alloc, &program)?)
}

/// Expressions and their texts: with parentheses where the grammar needs them, and nowhere else.
const EXPRESSIONS: [(&str, &str); 12] = [
    ("(a + b)*c", "( a + b ) * c"),
    ("(a - b)+c", "( a - b ) + c"),
    ("-(a + b)", "- ( a + b )"),
    ("(lds 2 a).0", "( lds 2 a ) . 0"),
    ("(a.1).2", "( a . 1 ) . 2"),
    ("(a == b)|c", "( a == b ) | c"),
    ("(a <+ b)>=c", "( a <+ b ) >= c"),
    ("(a & b)>>63", "( a & b ) >> 63"),
    ("-(-(a))", "- - a"),
    ("((a)+(b*c))", "a + b * c"),
    ("(ldb x)+0x10", "ldb x + 16"),
    (
        "< <(a < b), (x).0>, (@biw #>> 1)&(-@base)>",
        "< < a < b , x . 0 > , @biw #>> 1 & - @base >",
    ),
];

#[test]
fn prints_expressions(rt: HostRuntime) -> Result<(), Fail> {
    let alloc = rt.alloc();
    for (expression, want) in EXPRESSIONS {
        let source = format!(in alloc; "fun main() {{ return {expression}; }}")?;
        let text = reprinted(alloc, source.as_str())?;
        let want = format!(in alloc; "fun main ( ) {{\nreturn {want} ;\n}}\n")?;
        assert_eq!(rt; text.as_slice(), want.as_bytes(), "{expression}");
    }
    Ok(())
}

/// A program with one statement of each kind.
const SOURCE: &str =
    "fun {2, 1} f(1 a, {2, 1} b) { skip; var x = a; x = b; st x, a; stb x, b; while a { break; continue; }
    if a { raise E b; } else { x = g(a) handle E y { return y; }; } var z = g(b); g(a); x = !ld16 a;
    !st64 a, b; @print(a, b, c, d); return g(a); } exception E {2, 1};";

/// Its canonical text.
const TEXT: &str = "exception E { 2 , 1 } ;
fun { 2 , 1 } f ( 1 a , { 2 , 1 } b ) {
skip ;
var x = a ;
x = b ;
st x , a ;
stb x , b ;
while a {
break ;
continue ;
}
if a {
raise E b ;
}
else {
x = g ( a ) handle E y {
return y ;
}
;
}
var z = g ( b ) ;
g ( a ) ;
x = !ld16 a ;
!st64 a , b ;
@print ( a , b , c , d ) ;
return g ( a ) ;
}
";

/// The text is the canonical one, and reads back as a program with the same text.
#[test]
fn prints_statements(rt: HostRuntime) -> Result<(), Fail> {
    for (source, want) in [(SOURCE, TEXT), (TEXT, TEXT), ("", "")] {
        let text = reprinted(rt.alloc(), source)?;
        assert_eq!(rt; text.as_slice(), want.as_bytes());
    }
    Ok(())
}
