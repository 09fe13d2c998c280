//! The worked examples, and what the definitions say of them.

ghost use Rattle.std.specs.Prelude.{◌≡◌, ◌++◌, codes};
ghost use Rattle.hg_base.specs.Script.{replay};
ghost use Rattle.hg_base.specs.Sound.{IsSound};
ghost use Rattle.hg_base.specs.Text.{text_of};
ghost use Rattle.hg_decide.specs.Writing.{plain_row};
ghost use Rattle.hg_decide.specs.Examples.{empty, own_write, absent_key, two_puts, absent_deletion, scan_ends, undeclared, open_write, middle_of_a_chain, group_pass, equal_to_a_successor, moved, not_long, kept_deletion, kept_deletion_longer, cursor};
ghost use Rattle.hg_decide.specs.Broken.{another_number, another_row, another_snapshot, none_left, without_a_line, row_skipped, row_twice, row_too_new, too_many_rows, too_few_rows};
ghost use Rattle.hg_decide.specs.Audit.{HasFault, in_commits, in_reply, in_shape, in_totals};

/// What is printed for each example without a collector's pass is sound.
pub fn examples_without_collectors_are_sound()
    ensures empty { IsSound replay empty.script empty.printed }
    ensures own_write { IsSound replay own_write.script own_write.printed }
    ensures absent_key { IsSound replay absent_key.script absent_key.printed }
    ensures two_puts { IsSound replay two_puts.script two_puts.printed }
    ensures absent_deletion { IsSound replay absent_deletion.script absent_deletion.printed }
    ensures scan_ends { IsSound replay scan_ends.script scan_ends.printed }
    ensures undeclared { IsSound replay undeclared.script undeclared.printed }
    ensures open_write { IsSound replay open_write.script open_write.printed }
{}

/// What is printed for each example in which a collector makes a pass is sound.
pub fn examples_with_collectors_are_sound()
    ensures middle_of_a_chain { IsSound replay middle_of_a_chain.script middle_of_a_chain.printed }
    ensures group_pass { IsSound replay group_pass.script group_pass.printed }
    ensures equal_to_a_successor { IsSound replay equal_to_a_successor.script
        equal_to_a_successor.printed }
    ensures moved { IsSound replay moved.script moved.printed }
    ensures not_long { IsSound replay not_long.script not_long.printed }
    ensures kept_deletion { IsSound replay kept_deletion.script kept_deletion.printed }
    ensures kept_deletion_longer { IsSound replay kept_deletion_longer.script
        kept_deletion_longer.printed }
    ensures cursor { IsSound replay cursor.script cursor.printed }
{}

/// What is printed for each example without a collector's pass has these bytes. Fields are joined by commas, and a record ends with a
/// line feed.
pub fn examples_without_collectors_print_their_text()
    ensures empty { text_of plain_row empty.script empty.printed
        ≡ codes "total,made,0\ntotal,undone,0\ntotal,group,0\ntotal,table,0\n"
        ++ codes "total,interval,0\ntotal,left,0\n" }
    ensures own_write { text_of plain_row own_write.script own_write.printed
        ≡ codes "1,2,begun,0\n1,3,stored\n1,4,row,7\n1,5,committed,1\n"
        ++ codes "total,made,1\ntotal,undone,0\ntotal,group,0\ntotal,table,0\n"
        ++ codes "total,interval,0\ntotal,left,1\n" }
    ensures absent_key { text_of plain_row absent_key.script absent_key.printed
        ≡ codes "1,2,at,0,none\n"
        ++ codes "total,made,0\ntotal,undone,0\ntotal,group,0\ntotal,table,0\n"
        ++ codes "total,interval,0\ntotal,left,0\n" }
    ensures two_puts { text_of plain_row two_puts.script two_puts.printed
        ≡ codes "1,2,begun,0\n1,3,stored\n1,4,stored\n1,5,row,2\n1,6,committed,1\n"
        ++ codes "total,made,1\ntotal,undone,0\ntotal,group,0\ntotal,table,0\n"
        ++ codes "total,interval,0\ntotal,left,1\n" }
    ensures absent_deletion { text_of plain_row absent_deletion.script absent_deletion.printed
        ≡ codes "1,2,begun,0\n1,3,none\n1,4,ended\n1,5,at,0,none\n"
        ++ codes "total,made,0\ntotal,undone,0\ntotal,group,0\ntotal,table,0\n"
        ++ codes "total,interval,0\ntotal,left,0\n" }
    ensures scan_ends { text_of plain_row scan_ends.script scan_ends.printed
        ≡ codes "1,2,at,0,stored,committed,1\n1,3,at,1,rows,0\n1,4,at,1,rows,1\n"
        ++ codes "1,4,row,18446744073709551615,-3\n"
        ++ codes "total,made,1\ntotal,undone,0\ntotal,group,0\ntotal,table,0\n"
        ++ codes "total,interval,0\ntotal,left,1\n" }
    ensures undeclared { text_of plain_row undeclared.script undeclared.printed
        ≡ codes "1,3,begun,0\n1,4,refused,undeclared,t\n1,5,none\n1,6,ended\n"
        ++ codes "total,made,0\ntotal,undone,0\ntotal,group,0\ntotal,table,0\n"
        ++ codes "total,interval,0\ntotal,left,0\n" }
    ensures open_write { text_of plain_row open_write.script open_write.printed
        ≡ codes "1,2,begun,0\n2,3,begun,0\n1,4,stored\n2,5,refused,open,1,1\n1,6,undone\n"
        ++ codes "2,7,stored\n2,8,committed,1\n"
        ++ codes "total,made,2\ntotal,undone,1\ntotal,group,0\ntotal,table,0\n"
        ++ codes "total,interval,0\ntotal,left,1\n" }
{}

/// What is printed for each example in which a collector makes a pass has these bytes.
pub fn examples_with_collectors_print_their_text()
    ensures middle_of_a_chain { text_of plain_row middle_of_a_chain.script middle_of_a_chain.printed
        ≡ codes "2,2,at,0,stored,committed,1\n1,3,begun,1\n2,4,at,1,stored,committed,2\n"
        ++ codes "2,5,at,2,stored,committed,3\n2,6,at,3,stored,committed,4\n"
        ++ codes "3,7,swept,interval,4,4,2\n3,7,held,1,1,unmoved\n1,8,row,10\n1,9,ended\n"
        ++ codes "total,made,4\ntotal,undone,0\ntotal,group,0\ntotal,table,1\n"
        ++ codes "total,interval,2\ntotal,left,1\n" }
    ensures group_pass { text_of plain_row group_pass.script group_pass.printed
        ≡ codes "2,2,at,0,stored,committed,1\n1,3,begun,1\n2,4,at,1,stored,committed,2\n"
        ++ codes "2,5,at,2,stored,committed,3\n2,6,at,3,stored,committed,4\n"
        ++ codes "3,7,swept,group,4,4,0\n3,7,held,1,1,unmoved\n1,8,row,10\n1,9,ended\n"
        ++ codes "total,made,4\ntotal,undone,0\ntotal,group,0\ntotal,table,3\n"
        ++ codes "total,interval,0\ntotal,left,1\n" }
    ensures equal_to_a_successor { text_of plain_row equal_to_a_successor.script
        equal_to_a_successor.printed
        ≡ codes "1,2,at,0,stored,committed,1\n1,3,at,1,stored,committed,2\n2,4,begun,2\n"
        ++ codes "1,5,at,2,stored,committed,3\n3,6,swept,interval,3,3,1\n"
        ++ codes "3,6,held,2,2,unmoved\n2,7,row,20\n"
        ++ codes "total,made,3\ntotal,undone,0\ntotal,group,0\ntotal,table,1\n"
        ++ codes "total,interval,1\ntotal,left,1\n" }
    ensures moved { text_of plain_row moved.script moved.printed
        ≡ codes "2,3,at,0,stored,committed,1\n2,4,at,1,stored,committed,2\n1,5,begun,2\n"
        ++ codes "2,6,at,2,stored,committed,3\n2,7,at,3,stored,committed,4\n"
        ++ codes "2,8,at,4,stored,committed,5\n2,9,at,5,stored,committed,6\n"
        ++ codes "2,10,at,6,stored,committed,7\n3,11,swept,table,7,7,4\n"
        ++ codes "3,11,held,1,2,moved\n1,12,row,11\n"
        ++ codes "total,made,7\ntotal,undone,0\ntotal,group,0\ntotal,table,5\n"
        ++ codes "total,interval,0\ntotal,left,2\n" }
    ensures not_long { text_of plain_row not_long.script not_long.printed
        ≡ codes "2,3,at,0,stored,committed,1\n1,4,begun,1\n2,5,at,1,stored,committed,2\n"
        ++ codes "2,6,at,2,stored,committed,3\n2,7,at,3,stored,committed,4\n"
        ++ codes "3,8,swept,table,4,4,0\n3,8,held,1,1,unmoved\n"
        ++ codes "total,made,4\ntotal,undone,0\ntotal,group,0\ntotal,table,3\n"
        ++ codes "total,interval,0\ntotal,left,1\n" }
    ensures kept_deletion { text_of plain_row kept_deletion.script kept_deletion.printed
        ≡ codes "2,2,at,0,stored,committed,1\n1,3,begun,1\n2,4,begun,1\n2,5,gone\n"
        ++ codes "2,6,committed,2\n3,7,swept,group,2,2,0\n3,7,held,1,1,unmoved\n"
        ++ codes "3,8,swept,table,2,2,0\n3,8,held,1,1,unmoved\n3,9,swept,interval,2,2,0\n"
        ++ codes "3,9,held,1,1,unmoved\n1,10,refused,newer,2\n"
        ++ codes "total,made,2\ntotal,undone,0\ntotal,group,0\ntotal,table,2\n"
        ++ codes "total,interval,0\ntotal,left,0\n" }
    ensures kept_deletion_longer { text_of plain_row kept_deletion_longer.script
        kept_deletion_longer.printed
        ≡ codes "2,2,at,0,stored,committed,1\n1,3,begun,1\n2,4,begun,1\n2,5,gone\n"
        ++ codes "2,6,committed,2\n3,7,swept,group,2,2,0\n3,7,held,1,1,unmoved\n"
        ++ codes "3,8,swept,table,2,2,0\n3,8,held,1,1,unmoved\n3,9,swept,interval,2,2,0\n"
        ++ codes "3,9,held,1,1,unmoved\n1,10,refused,newer,2\n1,11,undone\n"
        ++ codes "3,12,swept,table,2,2,2\n"
        ++ codes "total,made,2\ntotal,undone,0\ntotal,group,0\ntotal,table,2\n"
        ++ codes "total,interval,0\ntotal,left,0\n" }
    ensures cursor { text_of plain_row cursor.script cursor.printed
        ≡ codes "2,2,at,0,stored,committed,1\n2,3,at,1,stored,committed,2\n"
        ++ codes "2,4,at,2,stored,committed,3\n1,5,begun,3\n1,6,rows,2\n1,6,row,1,10\n"
        ++ codes "1,6,row,2,20\n2,7,at,3,stored,committed,4\n2,8,at,4,stored,committed,5\n"
        ++ codes "2,9,at,5,gone,committed,6\n3,10,swept,interval,6,6,1\n"
        ++ codes "3,10,held,1,3,unmoved\n1,11,rows,1\n1,11,row,3,30\n1,12,rows,0\n"
        ++ codes "1,13,ended\n"
        ++ codes "total,made,6\ntotal,undone,0\ntotal,group,0\ntotal,table,3\n"
        ++ codes "total,interval,1\ntotal,left,2\n" }
{}

/// A transaction's text that is broken in one place is not sound, and its first fault (`.._at`) is in the part that was broken.
pub fn broken_transactions_are_not_sound()
    ensures another_row { IsSound replay own_write.script another_row → ⊥ }
    ensures another_row_at { HasFault replay own_write.script another_row (in_reply 2) }
    ensures another_number { IsSound replay own_write.script another_number → ⊥ }
    ensures another_number_at { HasFault replay own_write.script another_number in_commits }
    ensures another_snapshot { IsSound replay own_write.script another_snapshot → ⊥ }
    ensures another_snapshot_at { HasFault replay own_write.script another_snapshot in_commits }
    ensures none_left { IsSound replay own_write.script none_left → ⊥ }
    ensures none_left_at { HasFault replay own_write.script none_left in_totals }
    ensures without_a_line { IsSound replay own_write.script without_a_line → ⊥ }
    ensures without_a_line_at { HasFault replay own_write.script without_a_line (in_shape 2) }
{}

/// A cursor's text in which one fetch is broken is not sound, and its first fault (`.._at`) is the reply to that fetch.
pub fn broken_cursors_are_not_sound()
    ensures row_skipped { IsSound replay cursor.script row_skipped → ⊥ }
    ensures row_skipped_at { HasFault replay cursor.script row_skipped (in_reply 9) }
    ensures row_twice_at { HasFault replay cursor.script row_twice (in_reply 9) }
    ensures row_too_new_at { HasFault replay cursor.script row_too_new (in_reply 9) }
    ensures too_many_rows_at { HasFault replay cursor.script too_many_rows (in_reply 4) }
    ensures too_few_rows_at { HasFault replay cursor.script too_few_rows (in_reply 4) }
{}
