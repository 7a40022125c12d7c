//! Whether a schema is the office's.

ghost use Rattle.std.specs.Prelude.{◌≡◌, ◌↔◌, ◌<◌, ◌∷◌, ◌++◌, IsTrue, Some, List, ℕ, map, slice_get, []};
ghost use Rattle.std.specs.List.{AllByRecursion};
ghost use Rattle.sqlite_schema.specs.declared.schema.Index as spec_index;
ghost use Rattle.sqlite_value.specs.declared.value.Value.TheVariants.{Null};
ghost use Rattle.sqlite_value.specs.Keys.{plain};
ghost use Rattle.permit_sql_rows.specs.Schema.{
  key_column,
  int_column,
  text_column,
  automatic,
  desk_table,
  party_table,
  parcel_table,
  interest_table,
  file_table,
  paper_table,
  first_tables,
  key_indexes,
  search_indexes,
  upgrade_table,
  first_schema,
  IsAmong,
  AreSearches,
  IsSecond,
  IsOffice,
};
ghost use Rattle.permit_model.specs.Tables.{version_of as version_under};
ghost use Rattle.permit_sql_rows.specs.Schema as spec;
ghost use Rattle.permit_sql_rows.specs.Shape.{column_of, reference_of, keys_of, table_of, index_of};

use permit_base::words::Edition;
use sqlite_schema::code::Terms;
use sqlite_schema::schema::{Action, Column, Index, Kind, Reference, Schema, Stamps, Table};
use sqlite_value::keys::{Collation, Order};
use sqlite_value::value::{Bytes, Value};

/// The version of the tables under an edition, which the desk keeps.
///
/// # Examples
///
/// ```
/// assert!(rt; version_of(Edition::First) == 1 && version_of(Edition::Second) == 2);
/// ```
pub fn version_of(edition: Edition) -> u32
    ensures { result ≡ version_under edition }
{
    match edition {
        Edition::First => 1,
        Edition::Second => 2,
    }
}

/// A column: its name, its type, and whether it has to hold a value.
#[derive(Clone, Copy)]
struct Field<'a> {
    name: &'a str,
    kind: Kind,
    not_null: bool,
}

/// A column that refers to another table.
#[derive(Clone, Copy)]
struct Link<'a> {
    place: usize,
    parent: &'a str,
}

/// A table: its rows' tree, its columns, and the places of its keys and references.
#[derive(Clone, Copy)]
struct Shape<'a> {
    tree: u32,
    name: &'a str,
    fields: &'a [Field<'a>],
    key: Option<usize>,
    primary: &'a [usize],
    unique: &'a [usize],
    links: &'a [Link<'a>],
}

/// An index: its tree, the tree of its table, and the places that it goes by.
#[derive(Clone, Copy)]
struct Search<'a> {
    name: &'a str,
    tree: u32,
    table: u32,
    places: &'a [usize],
    is_unique: bool,
}

fn is_null(value: &Value) -> bool
    ensures { IsTrue result ↔ (value.now ≡ Null) }
{
    matches!(value, Value::Null)
}

fn is_column(column: &Column, field: Field<'_>) -> bool
    ensures { IsTrue result ↔ (column.now ≡ column_of field.entry) }
{
    column.name.as_slice() == field.name.as_bytes()
        && column.kind == field.kind
        && column.is_strict
        && column.not_null == field.not_null
        && is_null(&column.default)
        && column.collation == Collation::Binary
}

fn are_columns(mut columns: &[Column], mut fields: &[Field<'_>]) -> bool
    ensures { IsTrue result ↔ (columns.entry.now ≡ map column_of fields.entry.now) }
{
    'fields: while let [column, more @ ..] = columns {
        let [field, rest @ ..] = fields else {
            return false;
        };
        if !is_column(column, *field) {
            return false;
        }
        columns = more;
        fields = rest;
    }
    fields.is_empty()
}

fn is_reference(reference: &Reference, link: Link<'_>) -> bool
    ensures { IsTrue result ↔ (reference.now ≡ reference_of link.entry) }
{
    reference.columns.as_slice() == [link.place].as_slice()
        && reference.parent.as_slice() == link.parent.as_bytes()
        && reference.parent_columns.is_empty()
        && reference.on_delete == Action::NoAction
        && reference.on_update == Action::NoAction
        && !reference.is_deferred
}

fn are_references(mut references: &[Reference], mut links: &[Link<'_>]) -> bool
    ensures { IsTrue result ↔ (references.entry.now ≡ map reference_of links.entry.now) }
{
    'links: while let [reference, more @ ..] = references {
        let [link, rest @ ..] = links else {
            return false;
        };
        if !is_reference(reference, *link) {
            return false;
        }
        references = more;
        links = rest;
    }
    links.is_empty()
}

fn has_no_terms(terms: &Terms) -> bool
    ensures { IsTrue result ↔ (terms.now ≡ []) }
{
    terms.roots.is_empty()
}

#[tactic(auto, using(crate::proofs::Shapes::one_key))]
fn are_keys(table: &Table, unique: &[usize]) -> bool
    ensures { IsTrue result ↔ (table.now.uniques ≡ keys_of unique.now) }
{
    if unique.is_empty() {
        return table.uniques.is_empty();
    }
    match table.uniques.as_slice() {
        [key] => key.as_slice() == unique,
        _ => false,
    }
}

fn are_plain(orders: &[Order], unique: &[usize]) -> bool
    ensures { IsTrue result ↔ (orders.now ≡ map (λ _. plain) (keys_of unique.now)) }
{
    if unique.is_empty() {
        return orders.is_empty();
    }
    match orders {
        [order] => order.digits == 0,
        _ => false,
    }
}

fn has_no_stamps(stamps: &Stamps) -> bool
    ensures { IsTrue result ↔ (stamps.now ≡ record { places = []; terms = []; formats = [] }) }
{
    stamps.places.is_empty() && has_no_terms(&stamps.terms) && stamps.formats.is_empty()
}

fn is_table(table: &Table, shape: Shape<'_>) -> bool
    ensures { IsTrue result ↔ (table.now ≡ table_of shape.entry) }
{
    table.name.as_slice() == shape.name.as_bytes()
        && table.tree == shape.tree
        && are_columns(table.columns.as_slice(), shape.fields)
        && table.key == shape.key
        && table.primary.as_slice() == shape.primary
        && are_keys(table, shape.unique)
        && are_plain(table.orders.as_slice(), shape.unique)
        && has_no_terms(&table.checks)
        && are_references(table.references.as_slice(), shape.links)
        && table.computed.is_empty()
        && has_no_stamps(&table.stamps)
        && !table.is_counted
}

fn is_index(index: &Index, search: Search<'_>) -> bool
    ensures { IsTrue result ↔ (index.now ≡ index_of search.entry) }
{
    index.name.as_slice() == search.name.as_bytes()
        && index.tree == search.tree
        && index.table == search.table
        && index.columns.as_slice() == search.places
        && index.order.digits == 0
        && index.is_unique == search.is_unique
}

/// The column that is the rowid.
fn id<'a>() -> Field<'a>
    ensures { column_of result ≡ key_column }
{
    Field {
        name: "id",
        kind: Kind::Integer,
        not_null: false,
    }
}

/// A column of numbers.
fn number(name: &str) -> Field<'_>
    ensures { column_of result ≡ int_column name.now }
{
    Field {
        name,
        kind: Kind::Integer,
        not_null: true,
    }
}

/// A column of texts.
fn text(name: &str) -> Field<'_>
    ensures { column_of result ≡ text_column name.now }
{
    Field {
        name,
        kind: Kind::Text,
        not_null: true,
    }
}

/// A column that refers to the key of another table.
fn refers(place: usize, parent: &str) -> Link<'_>
    ensures { reference_of result ≡ spec.refers place parent.now }
{
    Link { place, parent }
}

/// The index that keeps a key.
fn key_index<'a>(name: &'a str, tree: u32, table: u32, places: &'a [usize]) -> Search<'a>
    ensures { index_of result ≡ automatic name.now tree table places.now }
{
    Search {
        name,
        tree,
        table,
        places,
        is_unique: true,
    }
}

/// An index that is no key.
fn plain_index<'a>(name: &'a str, tree: u32, table: u32, places: &'a [usize]) -> Search<'a>
    ensures { index_of result ≡ spec.plain_index name.now tree table places.now }
{
    Search {
        name,
        tree,
        table,
        places,
        is_unique: false,
    }
}

/// Whether the table is the desk's.
fn is_desk(table: &Table) -> bool
    ensures { IsTrue result ↔ (table.now ≡ desk_table) }
{
    is_table(
        table,
        Shape {
            tree: 0,
            name: "desk",
            fields: &[
                id(),
                number("version"),
                number("last"),
                number("parties"),
                number("parcels"),
                number("files"),
            ],
            key: Some(0),
            primary: &[0],
            unique: &[],
            links: &[],
        },
    )
}

/// Whether the table is the parties'.
fn is_party(table: &Table) -> bool
    ensures { IsTrue result ↔ (table.now ≡ party_table) }
{
    is_table(
        table,
        Shape {
            tree: 1,
            name: "party",
            fields: &[id(), text("name"), number("role"), text("digest")],
            key: Some(0),
            primary: &[0],
            unique: &[4],
            links: &[],
        },
    )
}

/// Whether the table is the parcels'.
fn is_parcel(table: &Table) -> bool
    ensures { IsTrue result ↔ (table.now ≡ parcel_table) }
{
    is_table(
        table,
        Shape {
            tree: 3,
            name: "parcel",
            fields: &[id(), text("lot"), text("address"), number("owner")],
            key: Some(0),
            primary: &[0],
            unique: &[2],
            links: &[refers(4, "party")],
        },
    )
}

/// Whether the table is the interests'.
fn is_interest(table: &Table) -> bool
    ensures { IsTrue result ↔ (table.now ≡ interest_table) }
{
    is_table(
        table,
        Shape {
            tree: 5,
            name: "interest",
            fields: &[number("parcel"), number("party")],
            key: None,
            primary: &[1, 2],
            unique: &[1, 2],
            links: &[refers(1, "parcel"), refers(2, "party")],
        },
    )
}

/// Whether the table is the files'.
fn is_file(table: &Table) -> bool
    ensures { IsTrue result ↔ (table.now ≡ file_table) }
{
    is_table(
        table,
        Shape {
            tree: 7,
            name: "file",
            fields: &[
                id(),
                number("parcel"),
                number("applicant"),
                number("contractor"),
                number("reviewer"),
                number("inspector"),
                number("kind"),
                number("valuation"),
                text("description"),
                number("filed"),
                number("stage"),
                number("deadline"),
                number("done"),
                number("request"),
                number("requested"),
                number("ask"),
                number("stopped"),
                number("notices"),
                number("papers"),
                number("temporary"),
            ],
            key: Some(0),
            primary: &[0],
            unique: &[],
            links: &[refers(2, "parcel"), refers(3, "party")],
        },
    )
}

/// Whether the table is the papers'.
fn is_paper(table: &Table) -> bool
    ensures { IsTrue result ↔ (table.now ≡ paper_table) }
{
    is_table(
        table,
        Shape {
            tree: 8,
            name: "paper",
            fields: &[
                number("file"),
                number("number"),
                number("day"),
                number("author"),
                number("sort"),
                number("days"),
                text("text"),
                text("terms"),
                number("open"),
            ],
            key: None,
            primary: &[1, 2],
            unique: &[1, 2],
            links: &[refers(1, "file")],
        },
    )
}

/// Whether the table is the upgrade's, in a tree of its own.
fn is_upgrade(table: &Table) -> bool
    ensures { IsTrue result ↔ (table.now ≡ upgrade_table table.now.tree) × (9 < table.now.tree) × (table.now.tree < 65536) }
{
    9 < table.tree
        && table.tree < 65536
        && is_table(
            table,
            Shape {
                tree: table.tree,
                name: "upgrade",
                fields: &[id(), number("files")],
                key: Some(0),
                primary: &[0],
                unique: &[],
                links: &[],
            },
        )
}

/// Whether these are the six tables of version 1, made in their order.
#[tactic(auto, using(crate::proofs::Shapes::six_are))]
fn are_tables(tables: &[Table]) -> bool
    ensures { IsTrue result ↔ (tables.now ≡ first_tables) }
{
    match tables {
        [desk, party, parcel, interest, file, paper] => {
            is_desk(desk)
                && is_party(party)
                && is_parcel(parcel)
                && is_interest(interest)
                && is_file(file)
                && is_paper(paper)
        }
        _ => false,
    }
}

fn have_form(mut indexes: &[Index], mut searches: &[Search<'_>]) -> bool
    ensures { IsTrue result ↔ (indexes.entry.now ≡ map index_of searches.entry.now) }
{
    'searches: while let [index, more @ ..] = indexes {
        let [search, rest @ ..] = searches else {
            return false;
        };
        if !is_index(index, *search) {
            return false;
        }
        indexes = more;
        searches = rest;
    }
    searches.is_empty()
}

/// The eight indexes that are no keys, as they are founded.
fn searches<'a>() -> [Search<'a>; 8]
    ensures { map index_of result ≡ search_indexes }
{
    [
        plain_index("file_cell", 10, 7, &[11, 17, 12]),
        plain_index("file_applicant", 11, 7, &[3]),
        plain_index("file_contractor", 12, 7, &[4]),
        plain_index("file_reviewer", 13, 7, &[5]),
        plain_index("file_inspector", 14, 7, &[6]),
        plain_index("file_parcel", 15, 7, &[2]),
        plain_index("parcel_owner", 16, 3, &[4]),
        plain_index("interest_party", 17, 5, &[2]),
    ]
}

/// Whether these are the indexes of the four keys, made in their order.
fn are_key_indexes(indexes: &[Index]) -> bool
    ensures { IsTrue result ↔ (indexes.now ≡ key_indexes) }
{
    have_form(
        indexes,
        &[
            key_index("sqlite_autoindex_party_1", 2, 1, &[4]),
            key_index("sqlite_autoindex_parcel_1", 4, 3, &[2]),
            key_index("sqlite_autoindex_interest_1", 6, 5, &[1, 2]),
            key_index("sqlite_autoindex_paper_1", 9, 8, &[1, 2]),
        ],
    )
}

/// Whether the search's index is one of these, in whatever tree.
fn is_among(mut indexes: &[Index], search: Search<'_>) -> bool
    ensures { IsTrue result ↔ IsAmong (index_of search.entry) indexes.entry.now }
{
    'indexes: while let [index, more @ ..] = indexes {
        let tree = index.tree;
        if is_index(index, Search { tree, ..search }) {
            return true;
        }
        indexes = more;
    }
    false
}

/// Whether the index of each search is one of these, in whatever tree.
fn are_among(indexes: &[Index], mut searches: &[Search<'_>]) -> bool
    ensures { IsTrue result ↔ AllByRecursion (λ i. IsAmong i indexes.now) (map index_of searches.entry.now) }
{
    'searches: while let [search, rest @ ..] = searches {
        if !is_among(indexes, *search) {
            return false;
        }
        searches = rest;
    }
    true
}

/// Whether these are the eight indexes that are no keys, in any order and in any trees.
fn are_searches(indexes: &[Index]) -> bool
    ensures { IsTrue result ↔ AreSearches indexes.now }
{
    indexes.len() == 8 && are_among(indexes, &searches())
}

/// Whether the indexes are those of version 1, made in their order.
fn are_first_indexes(indexes: &[Index]) -> bool
    ensures { IsTrue result ↔ (indexes.now ≡ key_indexes ++ search_indexes) }
{
    match indexes.split_at_checked(4) {
        Some((keys, others)) => are_key_indexes(keys) && have_form(others, &searches()),
        None => false,
    }
}

/// Whether the indexes are those of version 2.
fn are_second_indexes(indexes: &[Index]) -> bool
    ensures { IsTrue result ↔ (searches : List spec_index.Index) × (indexes.now ≡ key_indexes ++ searches) × AreSearches searches }
{
    match indexes.split_at_checked(4) {
        Some((keys, others)) => are_key_indexes(keys) && are_searches(others),
        None => false,
    }
}

/// Whether the first table that was made is the desk's.
pub fn has_desk(schema: &Schema) -> bool
    ensures told { IsTrue result ↔ (slice_get schema.now.tables 0 ≡ Some desk_table) }
{
    match schema.tables.get(0) {
        Some(first) => is_desk(first),
        None => false,
    }
}

/// Whether these are the tables of version 1 and after them the upgrade's.
fn are_second_tables(tables: &[Table]) -> bool
    ensures { IsTrue result ↔ (tree : ℕ) × (tables.now ≡ first_tables ++ upgrade_table tree ∷ []) × (9 < tree) × (tree < 65536) }
{
    match tables {
        [first @ .., last] => are_tables(first) && is_upgrade(last),
        _ => false,
    }
}

/// Whether the schema is that of version 1, made in its order.
fn is_first(schema: &Schema) -> bool
    ensures { IsTrue result ↔ (schema.now ≡ first_schema) }
{
    are_tables(schema.tables.as_slice())
        && are_first_indexes(schema.indexes.as_slice())
        && schema.views.is_empty()
}

/// Whether the schema is that of version 2, in an order in which SQLite writes it.
fn is_second(schema: &Schema) -> bool
    ensures { IsTrue result ↔ IsSecond schema.now }
{
    are_second_tables(schema.tables.as_slice())
        && are_second_indexes(schema.indexes.as_slice())
        && schema.views.is_empty()
}

/// Whether the schema is the office's under an edition: its tables and indexes, and nothing more. Of version 2 the table
/// of the upgrade and the indexes that are no keys may be in any order, as `VACUUM` and a dump leave them.
///
/// # Examples
///
/// ```
/// assert!(rt; is_office(Edition::Second, conn.schema()));
/// assert!(rt; !is_office(Edition::First, conn.schema()));
/// ```
pub fn is_office(edition: Edition, schema: &Schema) -> bool
    ensures told { IsTrue result ↔ IsOffice edition schema.now }
{
    match edition {
        Edition::First => is_first(schema),
        Edition::Second => is_second(schema),
    }
}
