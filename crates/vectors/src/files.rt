// Questions on files, their directories and their name indexes.
use std::io;
use vector_script::Loan;
use vector_script::print::{Runs, Verdict};

pub(crate) fn directory<R: Print>(loan: &Loan<'_, R>) -> io::Result<()> {
    let a = export_files::meshpigeon_directory(loan.file);
    print!(loan.rt; "{} {} {}", Verdict(a.status), a.count, a.start)
}

// Where an entry lies, after its bytes.
pub(crate) fn entry<R: Print>(loan: &Loan<'_, R>) -> io::Result<()> {
    let number = loan.long_number()?;
    let a = export_files::meshpigeon_entry(loan.file, number);
    let bytes = loan.file.get(a.offset..).unwrap_or_default();
    let bytes = bytes.get(..a.size).unwrap_or_default();
    print!(loan.rt;
        "{}{} {} {}",
        Runs(bytes),
        Verdict(a.status),
        a.offset,
        a.size
    )
}

// Asked with the map's name.
pub(crate) fn marker<R: Print>(loan: &Loan<'_, R>) -> io::Result<()> {
    let a = export_files::meshpigeon_find_map(loan.file, loan.with);
    print!(loan.rt; "{} {} {}", Verdict(a.status), a.marker, a.compared)
}

// The file is the base and then the patch. Asked with the base's length, then the name.
pub(crate) fn find<R: Print>(loan: &Loan<'_, R>) -> io::Result<()> {
    let (base, patch) = loan.two_files()?;
    let a = export_pairs::meshpigeon_pair_find(base, patch, loan.rest(4));
    print!(loan.rt; "{} {} {} {}", Verdict(a.status), a.file, a.offset, a.size)
}

// The file is the WAD and then its index. Asked with the WAD's length.
pub(crate) fn index<R: Print>(loan: &Loan<'_, R>) -> io::Result<()> {
    let (wad, index) = loan.two_files()?;
    let status = export_index::meshpigeon_index_check(wad, index);
    print!(loan.rt; "{}", Verdict(status))
}

// Asked with the WAD's length, then the name.
pub(crate) fn lookup<R: Print>(loan: &Loan<'_, R>) -> io::Result<()> {
    let (wad, index) = loan.two_files()?;
    let a = export_index::meshpigeon_index_find(wad, index, loan.rest(4));
    print!(loan.rt; "{} {} {}", Verdict(a.status), a.entry, a.compared)
}
