// Looking up the built-in names.

ghost use Rattle.std.specs.Prelude.{◌≡◌, IsTrue};
ghost use Rattle.std.specs.Str.{chars};
ghost use Rattle.ls_tables.specs.Builtins.{look_up, builtin_of, BUILTIN_NAMES};
ghost use Rattle.ls_tables.specs.steps.Search.{ascends, rows_of};

use crate::name::Builtin;
use ls_object::Symbol;

/// The rows of a table, each a name and what stands with it.
macro_rules! rows {
    ($($name:literal => $builtin:ident,)*) => {
        &[$(($name, Builtin::$builtin),)*]
    };
}

/// What stands with the name in a table that ascends, by a binary search.
fn look_up_in(rows: &[(&'static str, Builtin)], name: &str) -> Option<Builtin>
    requires { IsTrue (ascends (rows_of rows.now)) }
    ensures { result ≡ look_up name.now (rows_of rows.now) }
{
    match rows.binary_search_by(|row| row.0.cmp(name)) {
        Ok(place) => Some(rows[place].1),
        Err(_) => None,
    }
}

/// The built-in name that the characters are.
fn builtin_named(name: &str) -> Option<Builtin>
    ensures { result ≡ look_up (chars name.now) BUILTIN_NAMES }
{
    look_up_in(
        rows! {
            "*" => Star,
            "AND" => And,
            "ARRAY" => Array,
            "ATOM" => Atom,
            "BASE-CHAR" => BaseChar,
            "BASE-STRING" => BaseString,
            "BIGNUM" => Bignum,
            "BIT" => Bit,
            "BIT-VECTOR" => BitVector,
            "BOOLEAN" => Boolean,
            "CHARACTER" => Character,
            "COMPILED-FUNCTION" => CompiledFunction,
            "COMPLEX" => Complex,
            "CONDITION" => Condition,
            "CONS" => Cons,
            "DOUBLE-FLOAT" => DoubleFloat,
            "EQL" => Eql,
            "EXTENDED-CHAR" => ExtendedChar,
            "FIXNUM" => Fixnum,
            "FLOAT" => Float,
            "FUNCTION" => Function,
            "HASH-TABLE" => HashTable,
            "INTEGER" => Integer,
            "KEYWORD" => Keyword,
            "LIST" => List,
            "LOGICAL-PATHNAME" => LogicalPathname,
            "LONG-FLOAT" => LongFloat,
            "MEMBER" => Member,
            "MOD" => Mod,
            "NIL" => Nil,
            "NOT" => Not,
            "NULL" => Null,
            "NUMBER" => Number,
            "OR" => Or,
            "PACKAGE" => Package,
            "PATHNAME" => Pathname,
            "RANDOM-STATE" => RandomState,
            "RATIO" => Ratio,
            "RATIONAL" => Rational,
            "READTABLE" => Readtable,
            "REAL" => Real,
            "RESTART" => Restart,
            "SATISFIES" => Satisfies,
            "SEQUENCE" => Sequence,
            "SHORT-FLOAT" => ShortFloat,
            "SIGNED-BYTE" => SignedByte,
            "SIMPLE-ARRAY" => SimpleArray,
            "SIMPLE-BASE-STRING" => SimpleBaseString,
            "SIMPLE-BIT-VECTOR" => SimpleBitVector,
            "SIMPLE-STRING" => SimpleString,
            "SIMPLE-VECTOR" => SimpleVector,
            "SINGLE-FLOAT" => SingleFloat,
            "STANDARD-CHAR" => StandardChar,
            "STREAM" => Stream,
            "STRING" => String,
            "STRUCTURE-OBJECT" => StructureObject,
            "SYMBOL" => Symbol,
            "T" => T,
            "UNSIGNED-BYTE" => UnsignedByte,
            "VALUES" => Values,
            "VECTOR" => Vector,
        },
        name,
    )
}

/// What the symbol is as a built-in name of type specifiers; `None` exactly where it is no symbol of the package
/// COMMON-LISP with one of these names. It takes no memory, and looks at a few of the names by a binary search.
pub fn builtin(name: &Symbol) -> Option<Builtin>
    ensures { result ≡ builtin_of name.now }
{
    if name.package.is_ascii_text("COMMON-LISP") {
        builtin_named(name.name.as_str())
    } else {
        None
    }
}
