//! The definition of assembler text, on texts that were worked out by hand. These functions do
//! nothing: their contracts are computed when they are proved.

ghost use Rattle.std.specs.Prelude.{◌≡◌, map, Ok, Some};
ghost use Rattle.std.specs.Result.{result_err};
ghost use Rattle.elf64_write.specs.Written.{written};
ghost use Rattle.rv_asm.specs.Assembly.{assembly};
ghost use Rattle.rv_asm.specs.Worked as worked;

fn texts_with_images()
    ensures echo { assembly (worked.of_lines worked.echo_text) ≡ Ok (written worked.echo_image) }
    ensures count { assembly (worked.of_lines worked.count_text)
        ≡ Ok (written worked.count_image) }
    ensures edges { assembly (worked.of_lines worked.edges_text)
        ≡ Ok (written worked.edges_image) }
{}

fn texts_with_faults()
    ensures names { map (λ row. result_err (assembly (worked.of_lines row.0))) worked.names
        ≡ map (λ row. Some row.1) worked.names }
    ensures shapes { map (λ row. result_err (assembly (worked.of_lines row.0))) worked.shapes
        ≡ map (λ row. Some row.1) worked.shapes }
    ensures numbers { map (λ row. result_err (assembly (worked.of_lines row.0))) worked.numbers
        ≡ map (λ row. Some row.1) worked.numbers }
    ensures ranges { map (λ row. result_err (assembly (worked.of_lines row.0))) worked.ranges
        ≡ map (λ row. Some row.1) worked.ranges }
    ensures labels { map (λ row. result_err (assembly (worked.of_lines row.0))) worked.labels
        ≡ map (λ row. Some row.1) worked.labels }
    ensures images { map (λ row. result_err (assembly (worked.of_lines row.0))) worked.images
        ≡ map (λ row. Some row.1) worked.images }
{}

#[test]
fn the_definition_gives_what_was_worked_out() {
    texts_with_images();
    texts_with_faults();
}
