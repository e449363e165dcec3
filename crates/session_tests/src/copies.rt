// What a session and its report are made of is copied by those who hold it.
use claims::arrangement::Arrangement;
use linear::Linear;
use report::Outcome;
use tables::clause::Clause;
use tables::store::Row;
use tables::trail::Trail;

fn copied<T: Copy>() {}

#[test]
fn tables_are_copied(_rt: HostRuntime) {
    copied::<Clause>();
    copied::<Row>();
    copied::<Trail>();
    copied::<Arrangement>();
    copied::<Linear>();
    copied::<Outcome>();
}
